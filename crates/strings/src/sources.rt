// A text to read, with what every reader of it goes by.
use crate::classes::Classes;
use crate::dialects::Dialect;

#[derive(Clone, Copy)]
pub struct Source<'a> {
    pub bytes: &'a [u8],
    pub classes: &'a Classes,
    pub dialect: Dialect,
}

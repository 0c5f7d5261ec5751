// The two dialects of text: that of schemas and that of messages.
#[derive(Clone, Copy)]
pub enum Dialect {
    Schema,
    Message,
}

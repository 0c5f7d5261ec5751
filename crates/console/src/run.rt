// A program: schema.json, then standard input.
use crate::answers::{Session, Style};
use crate::files::{file_in, read_all};
use crate::opening::open_run;
use crate::rooms::{TABLE_ROOM, schema_room};
use crate::turns::take_input;
use lines::page::Page;
use std::io;
use std::io::{Print, Read};
use std::rt::Files;
use trees::types::Types;
use wordings::heads::SCHEMA_HEAD_ROOM;

fn answer_all<R: Files + Print, I: Read>(rt: &R, input: &mut I, style: Style) -> io::Result<()> {
    let mut room = schema_room();
    let mut rows = [0u32; TABLE_ROOM];
    let mut first = Page::<SCHEMA_HEAD_ROOM>::new();
    let read = read_all(rt, "schema.json", &mut room);
    let file = file_in(read, &room);
    let words = open_run(style, file, &mut rows, &mut first);
    rt.write_all(first.bytes())?;
    if let (Some(schema), Some(words)) = (file, words) {
        let types = Types {
            schema,
            table: &rows[..words],
        };
        take_input(rt, input, &Session { style, types })?;
    }
    Ok(())
}

// A write that fails ends the program, and there is no one to tell.
pub fn run<R: Files + Print, I: Read>(rt: &R, input: &mut I, style: Style) {
    let _ = answer_all(rt, input, style);
}

// The answers of both styles, put on a page.
ghost use Rattle.std.specs.Prelude.{◌≡◌, ◌+◌, ◌≤◌, ◌<◌, ◌^◌, ◌++◌, length};
ghost use Rattle.wordings.specs.Serving.Rooms.{schema_head_room};
ghost use Rattle.console.specs.Program.{record_room, schema_line, schema_text, result_line};
ghost use Rattle.console.specs.Serving.Steps.{longest_line, Says};

use crate::rooms::words_of;
use lines::decimals::{put_line, put_triple};
use lines::page::Page;
use message::check::check_message;
use numbers::{
    message_number, message_place, message_records, message_row, schema_number, schema_place,
    schema_rows,
};
use rules::{MessageAnswer, RECORD_WORDS, SchemaAnswer};
use trees::types::Types;
use wordings::heads::{put_message_head, put_schema_head};

// How a program answers: in numbers, or in words and as a tree of records.
#[derive(Clone, Copy)]
pub enum Style {
    Numbers,
    Tree,
}

// By what messages are answered: the style, and a schema with its table.
#[derive(Clone, Copy)]
pub struct Session<'a> {
    pub style: Style,
    pub types: Types<'a>,
}

// The three numbers of a schema's answer.
#[tactic(auto, using(std::proofs::lemmas::Grind::common_steps, crate::proofs::AnswerLaws::schema_is))]
fn put_schema_numbers<const N: usize>(answer: SchemaAnswer, out: &mut Page<N>)
    requires { length out.old + schema_head_room ≤ N }
    ensures { out.new ≡ out.old ++ schema_line answer }
{
    put_triple(
        out,
        schema_number(answer) as usize,
        schema_rows(answer),
        schema_place(answer),
    );
}

pub fn put_schema_answer<const N: usize>(
    style: Style,
    schema: &[u8],
    answer: SchemaAnswer,
    out: &mut Page<N>,
)
    requires { (length schema.now < 2 ^ 32) × (length out.old + schema_head_room ≤ N) }
    ensures { out.new ≡ out.old ++ schema_text style schema.now answer }
{
    match style {
        Style::Numbers => put_schema_numbers(answer, out),
        Style::Tree => put_schema_head(schema, answer, out),
    }
}

// The line of numbers of an answer, with the words of the records counted.
#[tactic(auto, using(std::proofs::lemmas::Grind::common_steps, crate::proofs::AnswerLaws::result_is))]
fn put_numbers<const N: usize>(answer: MessageAnswer, records: &[u32], out: &mut Page<N>)
    requires { (length records.now ≤ record_room) × (length out.old + longest_line ≤ N) }
    ensures { out.new ≡ out.old ++ result_line (record { answer = answer; words = records.now }) }
{
    let count = message_records(answer);
    let n = words_of(count, RECORD_WORDS, records.len());
    put_line(
        out,
        message_number(answer) as usize,
        message_row(answer),
        count,
        message_place(answer),
        &records[..n],
    );
}

// Puts the answer to one message, but for the records that are to be shown; answers how many words these have.
pub fn put_answer<const N: usize>(
    session: &Session,
    message: &[u8],
    records: &mut [u32],
    out: &mut Page<N>,
) -> usize
    requires { (length records.old ≤ record_room) × (length out.old + longest_line ≤ N) }
    ensures { Says session.now.style session.now.types.schema.now session.now.types.table.now (length records.old) message.now out.old out.new records.new result }
{
    let types = session.types;
    let answer = check_message(types.table, types.schema, message, records);
    match session.style {
        Style::Numbers => {
            put_numbers(answer, records, out);
            0
        }
        Style::Tree => {
            put_message_head(&types, message, answer, out);
            words_of(message_records(answer), RECORD_WORDS, records.len())
        }
    }
}

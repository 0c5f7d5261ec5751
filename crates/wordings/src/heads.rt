// What is shown of an answer: its number in words, and the text around the place of a refusal.
ghost use Rattle.std.specs.Prelude.{◌≡◌, ◌+◌, ◌≤◌, ◌<◌, ◌^◌, ◌++◌, length};
ghost use Rattle.wordings.specs.Wordings.{meaning_of, refused_line, rows_line, command_line, schema_points, message_points, schema_pointer, message_pointer, schema_head, message_head};
ghost use Rattle.wordings.specs.Serving.Rooms.{refusal_room, command_room, excerpt_room, position_room, schema_head_room, message_head_room};
ghost use Rattle.rules.specs.SchemaAnswers as Schemas;
ghost use Rattle.rules.specs.MessageAnswers as Messages;

use crate::excerpts::{EXCERPT_ROOM, put_excerpt};
use crate::positions::{POSITION_ROOM, put_position};
use lines::decimals::{NUMBER_ROOM, put_number};
use lines::page::Page;
use numbers::{message_number, schema_number};
use rows::names::name_of;
use rules::{MessageAnswer, MessageRefusal, SchemaAnswer, SchemaRefusal};
use trees::shown::put_shown;
use trees::types::Types;

// Room for a refusal: its number, its meaning of at most 71 bytes, and LF.
const REFUSAL_ROOM: usize = NUMBER_ROOM + 71 + 1;

// Room for all that is shown of a schema's answer.
pub const SCHEMA_HEAD_ROOM: usize = REFUSAL_ROOM + POSITION_ROOM + EXCERPT_ROOM;

fn schema_meaning(x: SchemaRefusal) -> &'static [u8]
    ensures { result.now ≡ meaning_of (Schemas.refusal_number x) }
{
    match x {
        SchemaRefusal::TooLong => b"the schema is longer than 32,768 bytes",
        SchemaRefusal::NotText => b"the file is not schema text",
        SchemaRefusal::RepeatedKey => b"an object has a key twice",
        SchemaRefusal::NotDefinitions => {
            b"not a definition: a kind, a key or a value is missing or not known"
        }
        SchemaRefusal::BadName => b"a name that is defined is no good name",
        SchemaRefusal::RepeatedName => {
            b"two names are one in C (- as _), or one is a built-in type's"
        }
        SchemaRefusal::UnknownName => b"a name refers to nothing that fits",
        SchemaRefusal::BadChain => {
            b"a chain of bases has a cycle, over 16 structs or a member twice"
        }
        SchemaRefusal::BadUnion => b"a union does not fit its discriminator and branches",
        SchemaRefusal::BadAlternate => b"the alternatives of an alternate can not be told apart",
        SchemaRefusal::BadReturn => {
            b"a command returns no struct, no union and no array of these"
        }
        SchemaRefusal::TooManyRows => b"the table would have more than 1,024 rows",
        SchemaRefusal::NoRoom => b"the table has more rows than there is room for",
    }
}

fn message_meaning(x: MessageRefusal) -> &'static [u8]
    ensures { result.now ≡ meaning_of (Messages.refusal_number x) }
{
    match x {
        MessageRefusal::UnsoundTable => b"the table is not sound",
        MessageRefusal::TooLong => b"the message is longer than 16,384 bytes",
        MessageRefusal::NotText => b"the message is not JSON text",
        MessageRefusal::TooDeep => b"the message nests deeper than 32 levels",
        MessageRefusal::RepeatedKey => b"an object has a key twice",
        MessageRefusal::NotEnvelope => {
            b"the message is not an object with execute or exec-oob, arguments and id"
        }
        MessageRefusal::UnknownCommand => b"the schema has no command of that name",
        MessageRefusal::NotOutOfBand => b"the command may not run out of band",
        MessageRefusal::NoReading => b"the arguments have no reading at the command's types",
        MessageRefusal::NoRoom => b"the reading has more records than there is room for",
    }
}

#[tactic(auto, using(std::proofs::lemmas::Grind::common_steps, crate::proofs::HeadLaws::refused_is, crate::proofs::HeadLaws::meaning_length, lines::proofs::TextLaws::number_length))]
fn put_refusal<const N: usize>(n: usize, meaning: &[u8], out: &mut Page<N>)
    requires { (meaning.now ≡ meaning_of n) × (length out.old + refusal_room ≤ N) }
    ensures puts { out.new ≡ out.old ++ refused_line n }
    ensures upper_bound { length out.new ≤ length out.old + refusal_room }
{
    put_number(out, n);
    out.push(b' ');
    out.put(meaning);
    out.push(b'\n');
}

#[tactic(auto, using(std::proofs::lemmas::Grind::common_steps, crate::proofs::HeadLaws::rows_are, lines::proofs::TextLaws::number_length))]
fn put_rows<const N: usize>(rows: usize, out: &mut Page<N>)
    requires { length out.old + refusal_room ≤ N }
    ensures { out.new ≡ out.old ++ rows_line rows }
{
    out.put(b"0 schema accepted, rows: ");
    put_number(out, rows);
    out.push(b'\n');
}

// Whether the place of a schema's refusal is shown.
fn schema_points(x: SchemaRefusal) -> bool
    ensures { result ≡ schema_points x }
{
    matches!(x, SchemaRefusal::NotText | SchemaRefusal::RepeatedKey)
}

#[tactic(auto, using(std::proofs::lemmas::Grind::common_steps, crate::proofs::HeadLaws::line_length))]
fn put_schema_pointer<const N: usize>(schema: &[u8], place: usize, points: bool, out: &mut Page<N>)
    requires { (length schema.now < 2 ^ 32) × (length out.old + position_room + excerpt_room ≤ N) }
    ensures { out.new ≡ out.old ++ schema_pointer schema.now place points }
{
    if points {
        let shown = place.min(schema.len());
        put_position(schema, shown, out);
        put_excerpt(schema, shown, out);
    }
}

#[tactic(auto, using(std::proofs::lemmas::Grind::common_steps, crate::proofs::HeadLaws::refused_is, crate::proofs::HeadLaws::meaning_length, lines::proofs::TextLaws::number_length))]
pub fn put_schema_head<const N: usize>(schema: &[u8], answer: SchemaAnswer, out: &mut Page<N>)
    requires { (length schema.now < 2 ^ 32) × (length out.old + schema_head_room ≤ N) }
    ensures { out.new ≡ out.old ++ schema_head schema.now answer }
{
    match answer {
        SchemaAnswer::Accepted(rows) => put_rows(rows, out),
        SchemaAnswer::Refused(x, place) => {
            put_refusal(schema_number(answer) as usize, schema_meaning(x), out);
            put_schema_pointer(schema, place, schema_points(x), out);
        }
    }
}

#[tactic(auto, using(std::proofs::lemmas::Grind::common_steps, crate::proofs::HeadLaws::command_is, trees::proofs::ShownLaws::shown_length))]
fn put_command<const N: usize>(types: &Types, row: usize, out: &mut Page<N>)
    requires { length out.old + command_room ≤ N }
    ensures { out.new ≡ out.old ++ command_line types.now.schema.now types.now.table.now row }
{
    out.put(b"0 ");
    put_shown(out, name_of(types.schema, types.table, row));
    out.push(b'\n');
}

// Whether the place of a message's refusal is shown. That of absent arguments is 0, and nothing stands there.
fn message_points(x: MessageRefusal, place: usize) -> bool
    ensures { result ≡ message_points x place }
{
    match x {
        MessageRefusal::NotText | MessageRefusal::TooDeep | MessageRefusal::RepeatedKey => true,
        MessageRefusal::NoReading | MessageRefusal::NoRoom => 0 < place,
        _ => false,
    }
}

fn put_message_pointer<const N: usize>(
    message: &[u8],
    place: usize,
    points: bool,
    out: &mut Page<N>,
)
    requires { length out.old + excerpt_room ≤ N }
    ensures { out.new ≡ out.old ++ message_pointer message.now place points }
{
    if points {
        put_excerpt(message, place.min(message.len()), out);
    }
}

#[tactic(auto, using(std::proofs::lemmas::Grind::common_steps, crate::proofs::HeadLaws::refused_is, crate::proofs::HeadLaws::meaning_length, lines::proofs::TextLaws::number_length))]
pub fn put_message_head<const N: usize>(
    types: &Types,
    message: &[u8],
    answer: MessageAnswer,
    out: &mut Page<N>,
)
    requires { length out.old + message_head_room ≤ N }
    ensures { out.new ≡ out.old ++ message_head types.now.schema.now types.now.table.now message.now answer }
{
    match answer {
        MessageAnswer::Accepted(row, _count) => put_command(types, row, out),
        MessageAnswer::Refused(x, place) => {
            put_refusal(message_number(answer) as usize, message_meaning(x), out);
            put_message_pointer(message, place, message_points(x, place), out);
        }
    }
}

// The calls for programs in C and Rust, with the numbers of the reference (Schema answers, Message answers, Places).
#![tactic(auto)]

ghost use Rattle.std.specs.Prelude.{◌≡◌};
ghost use Rattle.rules.specs.Sound.{sound};
ghost use Rattle.gateway.specs.Calls.{fresh, said_number, said_bytes};
ghost use Rattle.gateway.specs.Serving.Outcomes.{Compiled, Checked, Streamed};

use message::check::check_message;
use numbers::{
    message_number, message_place, message_records, message_row, schema_number, schema_place,
    schema_rows,
};
use rules::{MessageAnswer, MessageRefusal, NOWHERE};
use schema::compile::compile_schema;
use stream::reader::read_piece;
use stream::state::{Words, start};
use table::sound::is_sound;

// The words of a stream's state: the mode, the open brackets, the bytes of a message in the buffer.
const STREAM_WORDS: usize = 3;

// Compiles a schema: the number, the count of rows, the place of a refusal, and the lent rows.
#[unsafe(no_mangle)]
pub extern "C" fn windosprio_compile_schema(
    schema: &[u8],
    rows: &mut [u32],
    count: &mut usize,
    place: &mut usize,
) -> u32
    ensures { Compiled schema.now rows.old rows.new result count.new place.new }
{
    let a = compile_schema(schema, rows);
    *count = schema_rows(a);
    *place = schema_place(a);
    schema_number(a)
}

// Reads a message against a table and its schema: the number, the command's row, the count of records, the place of a refusal, and the lent records.
#[unsafe(no_mangle)]
pub extern "C" fn windosprio_check_message(
    table: &[u32],
    schema: &[u8],
    message: &[u8],
    records: &mut [u32],
    row: &mut usize,
    count: &mut usize,
    place: &mut usize,
) -> u32
    ensures { Checked schema.now table.now message.now records.old records.new result row.new count.new place.new }
{
    let a = check_message(table, schema, message, records);
    *row = message_row(a);
    *count = message_records(a);
    *place = message_place(a);
    message_number(a)
}

// Whether a table is sound over its schema.
#[unsafe(no_mangle)]
pub extern "C" fn windosprio_is_sound(schema: &[u8], table: &[u32]) -> bool
    ensures { result ≡ sound schema.now table.now }
{
    is_sound(schema, table)
}

// The number of what a stream hands out.
fn said_number(said: Result<Option<usize>, MessageRefusal>) -> u32
    ensures { result ≡ said_number said }
{
    match said {
        Ok(_) => 0,
        Err(x) => message_number(MessageAnswer::Refused(x, NOWHERE)),
    }
}

// The bytes of the message that a stream hands out.
fn said_bytes(said: Result<Option<usize>, MessageRefusal>) -> usize
    ensures { result ≡ said_bytes said }
{
    match said {
        Ok(Some(n)) => n,
        Ok(None) | Err(_) => 0,
    }
}

// The state of a stream of which nothing is read.
#[unsafe(no_mangle)]
pub extern "C" fn windosprio_stream_start(state: &mut [u64; STREAM_WORDS])
    ensures { state.new ≡ fresh }
{
    let w = start();
    *state = [w.mode, w.nest, w.len as u64];
}

// Reads a piece of a stream up to its first message or refusal: the number, the bytes taken, those of the message in the buffer, the place, and the lent state and buffer.
#[unsafe(no_mangle)]
pub extern "C" fn windosprio_stream_feed(
    state: &mut [u64; STREAM_WORDS],
    buffer: &mut [u8],
    piece: &[u8],
    taken: &mut usize,
    message_bytes: &mut usize,
    place: &mut usize,
) -> u32
    ensures { Streamed state.old buffer.old piece.now state.new buffer.new result taken.new message_bytes.new place.new }
{
    let kept = Words {
        mode: state[0],
        nest: state[1],
        len: state[2] as usize,
    };
    let r = read_piece(buffer, piece, kept);
    let w = r.state;
    *state = [w.mode, w.nest, w.len as u64];
    *taken = r.taken;
    *message_bytes = said_bytes(r.said);
    *place = NOWHERE;
    said_number(r.said)
}

// The message call: a sound table and its index, the message's text, what it asks, and the reading of that. Each stage answers what it found; records are written as they are read.
ghost use Rattle.std.specs.Prelude.{◌≤◌, ◌<◌, length};
ghost use Rattle.grammar.specs.Limits.{message_bytes};
ghost use Rattle.grammar.specs.Serving.Machine.Message.{read_message};
ghost use Rattle.rules.specs.Serving.Answers.{text_result, sound_result, message_result};
ghost use Rattle.children.specs.Index.{IndexedTable};
ghost use Rattle.message.specs.Stages.{short_message, NodesFit, ReadsText, KeysRead, WholeText, AskedIn, PresentIn, Uncleared, Answered};

use crate::asked::{Asked, Asking, ask_command};
use children::index::{INDEX_WORDS, fill_index};
use readings::readings::{Count, read_whole};
use rules::{MESSAGE_BYTES, MessageAnswer, MessageRefusal, NOWHERE, RECORD_WORDS};
use strings::dialects::Dialect;
use table::sound::is_sound;
use text::keys::first_repeat;
use text::nodes::{NODE_START, NODE_WORDS, Tree, node_number};
use text::reader::TextError;
use text::texts::read_message;
use tokens::node;
use words::clear;

// There is at most one node for every two bytes.
const NODE_ROOM: usize = NODE_WORDS * (MESSAGE_BYTES / 2);

// A message of up to so many bytes has its nodes in fewer words, which are sooner cleared.
const SHORT_MESSAGE: usize = MESSAGE_BYTES / 4;

const SHORT_ROOM: usize = NODE_WORDS * (SHORT_MESSAGE / 2);

// Why a message is no value that repeats no key, and at which place.
#[derive(Clone, Copy)]
pub struct TextRefused(pub MessageRefusal, pub usize);

// 25: the earliest key that is repeated, over the nodes.
fn find_repeats(m: &[u8], nodes: &[u32], count: usize) -> Result<(), TextRefused>
    requires { WholeText m.now nodes.now count }
    ensures { KeysRead m.now nodes.now result }
{
    let tree = Tree {
        bytes: m,
        dialect: Dialect::Message,
        nodes,
    };
    match first_repeat(tree, count) {
        Some(place) => Err(TextRefused(MessageRefusal::RepeatedKey, place)),
        None => Ok(()),
    }
}

// 23 to 25: the message's text, into words that its nodes fit: its value stands in the nodes from node 0 on.
fn read_text(m: &[u8], nodes: &mut [u32]) -> Result<(), TextRefused>
    requires { NodesFit m.now nodes.old }
    ensures { ReadsText m.now nodes.old nodes.new result }
{
    match read_message(m, nodes) {
        Ok(count) => find_repeats(m, nodes, count),
        Err(TextError::Fault(place)) => Err(TextRefused(MessageRefusal::NotText, place)),
        Err(TextError::Deep(place)) => Err(TextRefused(MessageRefusal::TooDeep, place)),
        Err(TextError::TooLong) => Err(TextRefused(MessageRefusal::NotText, NOWHERE)),
    }
}

// 29 and 30: the value at the node asked for, whose start is the place of either.
fn read_present(
    schema: &[u8],
    rows: &[u32],
    m: &[u8],
    nodes: &[u32],
    index: &[u32],
    asked: Asked,
    records: &mut [u32],
) -> MessageAnswer
    requires { PresentIn schema.now rows.now m.now nodes.now index.now asked }
    ensures { Uncleared (text_result schema.now rows.now (length records.old) (read_message m.now)) records.old records.new result }
{
    let how = asked.how;
    let place = node_number(nodes, asked.node, NODE_START);
    match read_whole(schema, rows, m, nodes, index, asked.node, how, records) {
        Count::Nothing => MessageAnswer::Refused(MessageRefusal::NoReading, place),
        Count::Records(n) => {
            if records.len() / RECORD_WORDS < n {
                return MessageAnswer::Refused(MessageRefusal::NoRoom, place);
            }
            MessageAnswer::Accepted(asked.second, n)
        }
    }
}

// 29 and 30: what is asked; an absent value is read as an empty object at 0, 0.
fn read_asked(
    schema: &[u8],
    rows: &[u32],
    m: &[u8],
    nodes: &[u32],
    index: &[u32],
    asked: Asked,
    records: &mut [u32],
) -> MessageAnswer
    requires { AskedIn schema.now rows.now m.now nodes.now index.now asked }
    ensures { Uncleared (text_result schema.now rows.now (length records.old) (read_message m.now)) records.old records.new result }
{
    if asked.node == 0 {
        let empty = [node::OBJECT, 0, 0, 1];
        return read_present(schema, rows, m, &empty, index, asked, records);
    }
    read_present(schema, rows, m, nodes, index, asked, records)
}

// 23 on, stage by stage, with words that the nodes of the message fit.
fn answer_in(
    schema: &[u8],
    rows: &[u32],
    index: &[u32],
    m: &[u8],
    nodes: &mut [u32],
    records: &mut [u32],
) -> MessageAnswer
    requires { IndexedTable schema.now rows.now index.now × NodesFit m.now nodes.old }
    ensures { Uncleared (text_result schema.now rows.now (length records.old) (read_message m.now)) records.old records.new result }
{
    let found = read_text(m, nodes);
    if let Err(TextRefused(x, place)) = found {
        return MessageAnswer::Refused(x, place);
    }
    match ask_command(schema, rows, m, nodes) {
        Asking::Refuses(x) => MessageAnswer::Refused(x, NOWHERE),
        Asking::Asks(asked) => read_asked(schema, rows, m, nodes, index, asked, records),
    }
}

// The nodes of a short message, and of a longer one.
fn answer_short(
    schema: &[u8],
    rows: &[u32],
    index: &[u32],
    m: &[u8],
    records: &mut [u32],
) -> MessageAnswer
    requires { IndexedTable schema.now rows.now index.now × (length m.now ≤ short_message) }
    ensures { Uncleared (text_result schema.now rows.now (length records.old) (read_message m.now)) records.old records.new result }
{
    let mut nodes = [0u32; SHORT_ROOM];
    answer_in(schema, rows, index, m, &mut nodes, records)
}

fn answer_long(
    schema: &[u8],
    rows: &[u32],
    index: &[u32],
    m: &[u8],
    records: &mut [u32],
) -> MessageAnswer
    requires { IndexedTable schema.now rows.now index.now × (length m.now ≤ message_bytes) }
    ensures { Uncleared (text_result schema.now rows.now (length records.old) (read_message m.now)) records.old records.new result }
{
    let mut nodes = [0u32; NODE_ROOM];
    answer_in(schema, rows, index, m, &mut nodes, records)
}

// 22 on: a message against a sound table and its index, which a run of messages can share.
fn answer_given(
    schema: &[u8],
    rows: &[u32],
    index: &[u32],
    m: &[u8],
    records: &mut [u32],
) -> MessageAnswer
    requires { IndexedTable schema.now rows.now index.now }
    ensures { Uncleared (sound_result schema.now rows.now m.now (length records.old)) records.old records.new result }
{
    if MESSAGE_BYTES < m.len() {
        return MessageAnswer::Refused(MessageRefusal::TooLong, NOWHERE);
    }
    if m.len() <= SHORT_MESSAGE {
        return answer_short(schema, rows, index, m, records);
    }
    answer_long(schema, rows, index, m, records)
}

// 21: the table is judged and its index filled before the message is looked at.
fn answer(schema: &[u8], rows: &[u32], m: &[u8], records: &mut [u32]) -> MessageAnswer
    ensures { Uncleared (message_result schema.now rows.now m.now (length records.old)) records.old records.new result }
{
    if !is_sound(schema, rows) {
        return MessageAnswer::Refused(MessageRefusal::UnsoundTable, NOWHERE);
    }
    let mut index = [0u32; INDEX_WORDS];
    fill_index(schema, rows, &mut index);
    answer_given(schema, rows, &index, m, records)
}

// Reads a message against a table and its schema: the command's row and the records of its arguments, or why it is refused.
pub fn check_message(
    table: &[u32],
    schema: &[u8],
    message: &[u8],
    records: &mut [u32],
) -> MessageAnswer
    ensures { Answered schema.now table.now message.now records.old records.new result }
{
    let a = answer(schema, table, message, records);
    match a {
        MessageAnswer::Refused(x, place) => {
            clear(records, 0);
            MessageAnswer::Refused(x, place)
        }
        MessageAnswer::Accepted(c, n) => {
            clear(records, RECORD_WORDS * n);
            MessageAnswer::Accepted(c, n)
        }
    }
}

// What a message asks to have read, by what kind of message it is: today a command's arguments.
ghost use Rattle.std.specs.Prelude.{◌≡◌, ◌+◌, ◌<◌, ◌^◌};
ghost use Rattle.rules.specs.Types.{first_row};
ghost use Rattle.rules.specs.Envelope.{may_use};
ghost use Rattle.rules.specs.Rows.{link_ref};
ghost use Rattle.message.specs.Asking.{AsksFor};

use crate::commands::{Command, find_command};
use crate::envelope::{Envelope, read_envelope};
use builtins::FIRST_REFERENCE;
use readings::readings::ReadAs;
use rows::rows::word;
use rules::{MessageRefusal, row};

// The node of the value, 0 where it is absent; how it is read; the second number of an acceptance.
#[derive(Clone, Copy)]
pub struct Asked {
    pub node: usize,
    pub how: ReadAs,
    pub second: usize,
}

#[derive(Clone, Copy)]
pub enum Asking {
    Asks(Asked),
    Refuses(MessageRefusal),
}

// The type reference to a link's row, 0 for no link. A link of a sound table is small.
fn link_ref(link: u32) -> u32
    ensures { link + first_row < 2 ^ 32 → result ≡ link_ref link }
{
    if link == 0 {
        return 0;
    }
    if u32::MAX - FIRST_REFERENCE < link {
        return 0;
    }
    link - 1 + FIRST_REFERENCE
}

// Whether a message may use the command at row c.
fn may_use(rows: &[u32], c: usize, oob: bool) -> bool
    ensures { result ≡ may_use rows.now c oob }
{
    if oob {
        return word(rows, c, row::ALLOW_OOB) == 1;
    }
    true
}

// 26 to 28: the arguments of the command that the message whose value stands at node 0 names and may use.
pub fn ask_command(schema: &[u8], rows: &[u32], m: &[u8], nodes: &[u32]) -> Asking
    ensures { AsksFor schema.now rows.now m.now nodes.now result }
{
    let said = read_envelope(m, nodes);
    let Envelope::Call(name, oob, arguments) = said else {
        return Asking::Refuses(MessageRefusal::NotEnvelope);
    };
    let found = find_command(schema, rows, m, nodes, name);
    let Command::Row(c) = found else {
        return Asking::Refuses(MessageRefusal::UnknownCommand);
    };
    if !may_use(rows, c, oob) {
        return Asking::Refuses(MessageRefusal::NotOutOfBand);
    }
    let how = ReadAs {
        reference: link_ref(word(rows, c, row::DATA_STRUCT)),
        array: 0,
        passes: false,
    };
    Asking::Asks(Asked {
        node: arguments,
        how,
        second: c,
    })
}

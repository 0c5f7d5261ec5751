// The numbers of the answers (Reference, Schema answers, Message answers and Places).
#![tactic(auto)]

ghost use Rattle.std.specs.Prelude.{◌≡◌};
ghost use Rattle.rules.specs.SchemaAnswers as Schemas;
ghost use Rattle.rules.specs.MessageAnswers as Messages;

use rules::{MessageAnswer, MessageRefusal, NOWHERE, SchemaAnswer, SchemaRefusal};

fn schema_refusal(x: SchemaRefusal) -> u32
    ensures { result ≡ Schemas.refusal_number x }
{
    match x {
        SchemaRefusal::TooLong => 1,
        SchemaRefusal::NotText => 2,
        SchemaRefusal::RepeatedKey => 3,
        SchemaRefusal::NotDefinitions => 4,
        SchemaRefusal::BadName => 5,
        SchemaRefusal::RepeatedName => 6,
        SchemaRefusal::UnknownName => 7,
        SchemaRefusal::BadChain => 8,
        SchemaRefusal::BadUnion => 9,
        SchemaRefusal::BadAlternate => 10,
        SchemaRefusal::BadReturn => 11,
        SchemaRefusal::TooManyRows => 12,
        SchemaRefusal::NoRoom => 13,
    }
}

pub fn schema_number(a: SchemaAnswer) -> u32
    ensures { result ≡ Schemas.answer_number a }
{
    match a {
        SchemaAnswer::Accepted(_n) => 0,
        SchemaAnswer::Refused(x, _p) => schema_refusal(x),
    }
}

pub fn schema_rows(a: SchemaAnswer) -> usize
    ensures { result ≡ Schemas.answer_rows a }
{
    match a {
        SchemaAnswer::Accepted(n) => n,
        SchemaAnswer::Refused(_x, _p) => 0,
    }
}

pub fn schema_place(a: SchemaAnswer) -> usize
    ensures { result ≡ Schemas.answer_place a }
{
    match a {
        SchemaAnswer::Accepted(_n) => NOWHERE,
        SchemaAnswer::Refused(_x, p) => p,
    }
}

fn message_refusal(x: MessageRefusal) -> u32
    ensures { result ≡ Messages.refusal_number x }
{
    match x {
        MessageRefusal::UnsoundTable => 21,
        MessageRefusal::TooLong => 22,
        MessageRefusal::NotText => 23,
        MessageRefusal::TooDeep => 24,
        MessageRefusal::RepeatedKey => 25,
        MessageRefusal::NotEnvelope => 26,
        MessageRefusal::UnknownCommand => 27,
        MessageRefusal::NotOutOfBand => 28,
        MessageRefusal::NoReading => 29,
        MessageRefusal::NoRoom => 30,
    }
}

pub fn message_number(a: MessageAnswer) -> u32
    ensures { result ≡ Messages.answer_number a }
{
    match a {
        MessageAnswer::Accepted(_c, _n) => 0,
        MessageAnswer::Refused(x, _p) => message_refusal(x),
    }
}

pub fn message_row(a: MessageAnswer) -> usize
    ensures { result ≡ Messages.answer_row a }
{
    match a {
        MessageAnswer::Accepted(c, _n) => c,
        MessageAnswer::Refused(_x, _p) => 0,
    }
}

pub fn message_records(a: MessageAnswer) -> usize
    ensures { result ≡ Messages.answer_records a }
{
    match a {
        MessageAnswer::Accepted(_c, n) => n,
        MessageAnswer::Refused(_x, _p) => 0,
    }
}

pub fn message_place(a: MessageAnswer) -> usize
    ensures { result ≡ Messages.answer_place a }
{
    match a {
        MessageAnswer::Accepted(_c, _n) => NOWHERE,
        MessageAnswer::Refused(_x, p) => p,
    }
}

// What the reader gives and the writer takes.
ghost use Rattle.std.specs.Prelude.{◌≡◌};
ghost use Rattle.element.specs.Numbers.{cause_number, number_of, placed_number};

use filter::Filter;
use filter::component::PLACES;

// Each with its number in octet 1.
#[derive(Clone, Copy, PartialEq, Eq)]
pub enum SetOperation {
    Create = 1,
    Add = 3,
    Replace = 4,
}

#[derive(Clone, Copy, PartialEq, Eq)]
pub enum BareOperation {
    DeleteTft = 2,
    NoOperation = 6,
}

// Numbers 42, 44 and 45.
#[derive(Clone, Copy, PartialEq, Eq)]
pub enum Cause {
    Operation,
    Semantics,
    Coding,
}

// The place is the offset, from 0, of what is wrong in the value.
#[derive(Clone, Copy, PartialEq, Eq)]
pub struct Refusal {
    pub cause: Cause,
    pub place: u8,
}

// Not a Result: what the reader gives is one of these four, a refusal among them, and the sets that it fills stand beside the answer in `Element`.
#[derive(Clone, Copy, PartialEq, Eq)]
pub enum Answer {
    Filters(SetOperation),
    Identifiers,
    Bare(BareOperation),
    Refused(Refusal),
}

// The filter with identifier n stands in place n, and so does the mark of identifier n; what the answer does not use is empty.
#[derive(Clone, Copy)]
pub struct Element {
    pub answer: Answer,
    pub filters: [Filter; PLACES],
    pub marks: [bool; PLACES],
}

fn cause_number(cause: Cause) -> u8
    ensures { result ≡ cause_number cause }
{
    match cause {
        Cause::Operation => 42,
        Cause::Semantics => 44,
        Cause::Coding => 45,
    }
}

// Its number: 0, or the cause.
pub fn number(answer: Answer) -> u8
    ensures { result ≡ number_of answer }
{
    match answer {
        Answer::Refused(refusal) => cause_number(refusal.cause),
        Answer::Filters(_) | Answer::Identifiers | Answer::Bare(_) => 0,
    }
}

// 0, or 256 times the cause, and the place.
pub fn placed_number(answer: Answer) -> u16
    ensures { result ≡ placed_number answer }
{
    match answer {
        Answer::Refused(refusal) => {
            u16::from(cause_number(refusal.cause)) * 256 + u16::from(refusal.place)
        }
        Answer::Filters(_) | Answer::Identifiers | Answer::Bare(_) => 0,
    }
}

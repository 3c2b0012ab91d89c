// The reader.
ghost use Rattle.std.specs.Prelude.{◌≡◌, ◌+◌, ◌≤◌, length, take, drop};
ghost use Rattle.element.specs.Numbers.{number_of, placed_number};
ghost use Rattle.element.specs.Read.{no_filters, no_marks, marked, read_element};
ghost use Rattle.element.specs.Inner.Walk.{frame_by, refused_frame, framed_within, unframed_within, answered};

use crate::answer::{Answer, Cause, Element, Refusal, number, placed_number};
use crate::framing::{Frame, frame_of, identifier_in};
use crate::head::LONGEST;
use crate::judge::lay_filters;
use filter::Filter;
use filter::component::PLACES;

// The identifiers of a delete list.
#[tactic(auto, unfolding(crate::specs::Read::marked))]
fn mark_all(value: &[u8], n: u8, marks: &mut [bool; PLACES])
    requires { 1 + n ≤ length value.now }
    ensures { marks.new ≡ marked (take n (drop 1 value.now)) marks.old }
{
    for octet in &value[1..1 + usize::from(n)] {
        marks[usize::from(identifier_in(*octet))] = true;
    }
}

// A value of more than 255 octets is not framed, and breaks at 0: so every place is an octet.
fn frame_within(value: &[u8]) -> Result<Frame, Refusal>
    ensures { result ≡ refused_frame (frame_by (framed_within value.now) (unframed_within value.now)) }
{
    let cause = Cause::Operation;
    if LONGEST < value.len() {
        return Err(Refusal { cause, place: 0 });
    }
    match frame_of(value) {
        Ok(frame) => Ok(frame),
        Err(place) => Err(Refusal {
            cause,
            place: place as u8,
        }),
    }
}

// What is read is laid into the sets, which are empty; where the value is refused they stay so.
fn read_sets(
    value: &[u8],
    filters: &mut [Filter; PLACES],
    marks: &mut [bool; PLACES],
) -> Result<Answer, Refusal>
    requires { (filters.old ≡ no_filters) × (marks.old ≡ no_marks) }
    ensures { record { answer = answered result; filters = filters.new; marks = marks.new } ≡ read_element value.now }
{
    match frame_within(value)? {
        Frame::Filters(operation, n) => match lay_filters(value, n, filters) {
            Ok(()) => Ok(Answer::Filters(operation)),
            Err(refusal) => {
                *filters = [Filter::bare(0, 0); PLACES];
                Err(refusal)
            }
        },
        Frame::Identifiers(n) => {
            mark_all(value, n, marks);
            Ok(Answer::Identifiers)
        }
        Frame::Bare(operation) => Ok(Answer::Bare(operation)),
    }
}

// The sets are made in one place: an element for each answer would be copied to where they meet.
#[tactic(auto, unfolding(crate::specs::Read::no_filters, crate::specs::Read::no_marks))]
pub fn read(value: &[u8]) -> Element
    ensures { result ≡ read_element value.now }
{
    let mut filters = [Filter::bare(0, 0); PLACES];
    let mut marks = [false; PLACES];
    let answer = match read_sets(value, &mut filters, &mut marks) {
        Ok(answer) => answer,
        Err(refusal) => Answer::Refused(refusal),
    };
    Element {
        answer,
        filters,
        marks,
    }
}

// How one element reads, for the stack's C side: 0, or the reader's cause.
pub fn trospel_element_cause(value: &[u8]) -> u8
    ensures { result ≡ number_of (read_element value.now).answer }
{
    number(read(value).answer)
}

// .. and where it broke: 256 times the cause, and the place; 0 where the element reads.
pub fn trospel_element_refusal(value: &[u8]) -> u16
    ensures { result ≡ placed_number (read_element value.now).answer }
{
    placed_number(read(value).answer)
}

// How a value's octets are framed: the list of entries that it has, and that what is left after it is what E says.
ghost use Rattle.std.specs.Prelude.{◌≡◌, ◌+◌, ◌≤◌, Some, None, Ok, Err, eqb, leb, length, drop};
ghost use Rattle.laws.specs.Says.{pick};
ghost use Rattle.element.specs.Framing.{identifier_in, identifier_of, split_of, parameters, rest_fits, framed_set, framed_identifiers, framed_bare, framed_by, framed_of};
ghost use Rattle.element.specs.Contents.{coded_of};
ghost use Rattle.element.specs.Places.{left_by, left_place, unframed_by, unframed_place};
ghost use Rattle.element.specs.Inner.Walk.{Gives, seen, next_filter, next_parameter, frame_by};

use crate::answer::{BareOperation, SetOperation};
use crate::contents::read_contents;
use crate::head::{
    ADD, CREATE, DELETE_FILTERS, DELETE_TFT, NO_OPERATION, REPLACE, count_in, extension_in,
    operation_in,
};
use filter::Filter;

// A list of filters or of identifiers comes with its count.
#[derive(Clone, Copy)]
pub enum Frame {
    Filters(SetOperation, u8),
    Identifiers(u8),
    Bare(BareOperation),
}

// A filter as it stands in the value.
#[derive(Clone, Copy)]
pub struct RawFilter<'a> {
    pub first: u8,
    pub precedence: u8,
    pub contents: &'a [u8],
}

impl<'a> RawFilter<'a> {
    pub(crate) fn identifier(&self) -> u8
        ensures { result ≡ identifier_of (seen self.now) }
    {
        identifier_in(self.first)
    }

    #[tactic(auto, unfolding(crate::specs::Contents::coded_of))]
    pub(crate) fn decoded(&self) -> Option<Filter>
        ensures { result ≡ coded_of (seen self.now) }
    {
        let direction = self.first / 16 % 4;
        read_contents(Filter::bare(self.precedence, direction), self.contents)
    }
}

pub(crate) fn identifier_in(octet: u8) -> u8
    ensures { result ≡ identifier_in octet }
{
    octet % 16
}

// The filter at the front of the octets, and the octets after it.
pub(crate) fn next_filter(octets: &[u8]) -> Option<(RawFilter, &[u8])>
    ensures { Gives (λ x. (seen x.0, x.1.now)) result (next_filter octets.now) }
{
    let [first, precedence, length, rest @ ..] = octets else {
        return None;
    };
    let (contents, rest) = rest.split_at_checked(usize::from(*length))?;
    let filter = RawFilter {
        first: *first,
        precedence: *precedence,
        contents,
    };
    Some((filter, rest))
}

// The octets after the first n filters.
fn after_filters(n: u8, octets: &[u8]) -> Option<&[u8]>
    ensures { Gives (λ x. x.now) result (left_by (split_of n octets.now)) }
{
    let mut rest = octets;
    for _ in 0..n {
        (_, rest) = next_filter(rest)?;
    }
    Some(rest)
}

// The octets after the parameter at the front of these.
fn next_parameter(octets: &[u8]) -> Option<&[u8]>
    ensures { Gives (λ x. x.now) result (next_parameter octets.now) }
{
    let [_, length, rest @ ..] = octets else {
        return None;
    };
    let (_, rest) = rest.split_at_checked(usize::from(*length))?;
    Some(rest)
}

fn parameters_fit(octets: &[u8]) -> bool
    ensures { result ≡ parameters 0 octets.now }
{
    let mut rest = octets;
    while !rest.is_empty() {
        let Some(after) = next_parameter(rest) else {
            return false;
        };
        rest = after;
    }
    true
}

#[tactic(auto, using(crate::proofs::Ending::none_given, crate::proofs::Ending::none_left, crate::proofs::Ending::some_given))]
fn rest_fits(e: u8, rest: &[u8]) -> bool
    ensures { result ≡ rest_fits e rest.now }
{
    if e == 0 {
        return rest.is_empty();
    }
    !rest.is_empty() && parameters_fit(rest)
}

// The frame, where the rest of a value of so many octets is what E says. Else it breaks: without E at the first octet that is left over, with E at the end.
fn close(frame: Frame, e: u8, rest: &[u8], total: usize) -> Result<Frame, usize>
    requires { length rest.now ≤ total }
    ensures { result ≡ pick (rest_fits e rest.now) (Ok frame) (Err (left_place total e (Some rest.now))) }
{
    if rest_fits(e, rest) {
        return Ok(frame);
    }
    Err(if e == 0 { total - rest.len() } else { total })
}

fn frame_filters(operation: SetOperation, e: u8, n: u8, octets: &[u8]) -> Result<Frame, usize>
    ensures { result ≡ frame_by (framed_set operation e n octets.now) (pick (leb 1 n) (left_place (1 + length octets.now) e (left_by (split_of n octets.now))) 0) }
{
    if n == 0 {
        return Err(0);
    }
    let total = 1 + octets.len();
    let rest = after_filters(n, octets).ok_or(total)?;
    close(Frame::Filters(operation, n), e, rest, total)
}

fn frame_identifiers(e: u8, n: u8, octets: &[u8]) -> Result<Frame, usize>
    ensures { result ≡ frame_by (framed_identifiers e n octets.now) (pick (leb 1 n) (left_place (1 + length octets.now) e (pick (leb n (length octets.now)) (Some (drop n octets.now)) None)) 0) }
{
    if n == 0 {
        return Err(0);
    }
    let total = 1 + octets.len();
    let (_, rest) = octets.split_at_checked(usize::from(n)).ok_or(total)?;
    close(Frame::Identifiers(n), e, rest, total)
}

fn frame_bare(operation: BareOperation, e: u8, n: u8, octets: &[u8]) -> Result<Frame, usize>
    ensures { result ≡ frame_by (framed_bare operation e n octets.now) (pick (eqb n 0) (left_place (1 + length octets.now) e (pick (leb n (length octets.now)) (Some (drop n octets.now)) None)) 0) }
{
    if n != 0 {
        return Err(0);
    }
    close(Frame::Bare(operation), e, octets, 1 + octets.len())
}

#[tactic(auto, unfolding(crate::specs::Framing::framed_by))]
fn frame_by(operation: u8, e: u8, n: u8, octets: &[u8]) -> Result<Frame, usize>
    ensures { result ≡ frame_by (framed_by operation e n octets.now) (unframed_by operation e n octets.now) }
{
    match operation {
        CREATE => frame_filters(SetOperation::Create, e, n, octets),
        DELETE_TFT => frame_bare(BareOperation::DeleteTft, e, n, octets),
        ADD => frame_filters(SetOperation::Add, e, n, octets),
        REPLACE => frame_filters(SetOperation::Replace, e, n, octets),
        DELETE_FILTERS => frame_identifiers(e, n, octets),
        NO_OPERATION => frame_bare(BareOperation::NoOperation, e, n, octets),
        _ => Err(0),
    }
}

// Where the value is not framed, the offset at which it breaks.
#[tactic(auto, unfolding(crate::specs::Framing::framed_of, crate::specs::Places::unframed_place))]
pub(crate) fn frame_of(value: &[u8]) -> Result<Frame, usize>
    ensures { result ≡ frame_by (framed_of value.now) (unframed_place value.now) }
{
    let [first, rest @ ..] = value else {
        return Err(0);
    };
    frame_by(
        operation_in(*first),
        extension_in(*first),
        count_in(*first),
        rest,
    )
}

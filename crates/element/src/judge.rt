// The coding, the fit and the repeats of a value's filters, each filter decoded once.
ghost use Rattle.std.specs.Prelude.{◌≡◌, true, false, ◌≤◌, ◌<◌, length, drop, get_or, set};
ghost use Rattle.element.specs.Head.{longest};
ghost use Rattle.element.specs.Framing.{split_of};
ghost use Rattle.element.specs.Read.{no_filters};
ghost use Rattle.element.specs.Inner.Walk.{first_of, whole, raws_in, rowed, judged_row};

use crate::answer::{Cause, Refusal};
use crate::framing::next_filter;
use filter::Filter;
use filter::component::{PLACES, PRECEDENCES};

// Whether x is marked already; it is from now on.
fn marked_before(marks: &mut [bool], x: usize) -> bool
    requires { x < length marks.old }
    ensures { (result ≡ get_or marks.old x false) × (marks.new ≡ set marks.old x true) }
{
    let before = marks[x];
    marks[x] = true;
    before
}

// What was found wrong before, if anything; else this, if it is wrong.
fn first(found: Option<Refusal>, wrong: bool, refusal: Refusal) -> Option<Refusal>
    ensures { result ≡ first_of found wrong refusal }
{
    if wrong {
        found.or(Some(refusal))
    } else {
        found
    }
}

// The n filters of a value, laid into the empty row by identifier. Where the list is refused, the place is where the earliest filter begins that is
// wrong: badly coded, before one that no packet fits, before one that repeats another. What stands in the row then says nothing.
pub(crate) fn lay_filters(value: &[u8], n: u8, row: &mut [Filter; PLACES]) -> Result<(), Refusal>
    requires { (((0 < length value.now) × (length value.now ≤ longest)) × (whole (split_of n (drop 1 value.now)) ≡ true)) × (row.old ≡ no_filters) }
    ensures { rowed result row.new ≡ judged_row (raws_in (split_of n (drop 1 value.now))) }
{
    let mut identifiers = [false; PLACES];
    let mut precedences = [false; PRECEDENCES];
    let mut unfit = None;
    let mut repeated = None;
    let mut rest = &value[1..];
    for _ in 0..n {
        let place = (value.len() - rest.len()) as u8;
        let Some((raw, after)) = next_filter(rest) else {
            unreachable!();
        };
        let coding = Refusal {
            cause: Cause::Coding,
            place,
        };
        let semantics = Refusal {
            cause: Cause::Semantics,
            place,
        };
        let identifier = usize::from(raw.identifier());
        let again = marked_before(&mut identifiers, identifier)
            | marked_before(&mut precedences, usize::from(raw.precedence));
        let filter = raw.decoded().ok_or(coding)?;
        unfit = first(unfit, !filter.fittable(), semantics);
        repeated = first(repeated, again, coding);
        row[identifier] = filter;
        rest = after;
    }
    match unfit.or(repeated) {
        Some(refusal) => Err(refusal),
        None => Ok(()),
    }
}

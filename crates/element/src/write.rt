// The writer.
ghost use Rattle.std.specs.Prelude.{◌≡◌, true, not, ◌+◌, ◌≤◌, ◌<◌, length};
ghost use Rattle.std.specs.List.{list_all};
ghost use Rattle.laws.specs.Lists.{every};
ghost use Rattle.filter.specs.Coding.{largest_direction, empty_place, held};
ghost use Rattle.filter.specs.Fittable.{place_fine};
ghost use Rattle.filter.specs.Sizes.{place_count};
ghost use Rattle.element.specs.Numbers.{written_number};
ghost use Rattle.element.specs.Write.{set_number, bare_number, entries_from, entries_octets, marks_from, octets_of, given, write_of};
ghost use Rattle.element.specs.Inner.Walk.{Puts, place_octets, mark_octets};

use crate::answer::{Answer, BareOperation, Element, SetOperation};
use crate::fields::put_contents;
use crate::head::{DELETE_FILTERS, LONGEST};
use crate::survey::row_given;
use filter::Filter;
use filter::component::PLACES;

// A first octet, and sixteen filters of at most 60 octets each.
const MOST: usize = 961;

// Numbers 10, 11 and 9.
#[derive(Clone, Copy, PartialEq, Eq)]
pub enum Unwritten {
    NotGiven,
    TooLong,
    NoRoom,
}

// The number of a refusal; 0 where the value was written.
pub fn written_number(written: Result<usize, Unwritten>) -> u8
    ensures { result ≡ written_number written }
{
    match written {
        Ok(_) => 0,
        Err(Unwritten::NotGiven) => 10,
        Err(Unwritten::TooLong) => 11,
        Err(Unwritten::NoRoom) => 9,
    }
}

fn set_number(operation: SetOperation) -> u8
    ensures { (result ≡ set_number operation) × (result ≤ 4) }
{
    operation as u8
}

fn bare_number(operation: BareOperation) -> u8
    ensures { (result ≡ bare_number operation) × (result ≤ 6) }
{
    operation as u8
}

fn no_filters(row: &[Filter; PLACES]) -> bool
    ensures { result ≡ list_all empty_place row.now }
{
    row.iter().all(|filter| filter.empty_place())
}

fn no_marks(marks: &[bool; PLACES]) -> bool
    ensures { result ≡ list_all not marks.now }
{
    marks.iter().all(|mark| !*mark)
}

#[tactic(auto, using(crate::proofs::Rows::entries_counted))]
fn count_filters(row: &[Filter; PLACES]) -> u8
    ensures { (result ≡ length (entries_from 0 row.now)) × (result ≤ place_count) }
{
    row.iter().filter(|filter| filter.held()).count() as u8
}

#[tactic(auto, using(crate::proofs::Rows::marks_counted))]
fn count_marks(marks: &[bool; PLACES]) -> u8
    ensures { (result ≡ length (marks_from 0 marks.now)) × (result ≤ place_count) }
{
    marks.iter().filter(|mark| **mark).count() as u8
}

#[tactic(auto, using(crate::proofs::Rows::every_all), unfolding(crate::specs::Write::given, crate::specs::Write::marks_given))]
fn given_element(element: &Element) -> bool
    ensures { result ≡ given element.now }
{
    match element.answer {
        Answer::Filters(_) => row_given(&element.filters) & no_marks(&element.marks),
        Answer::Identifiers => {
            let n = count_marks(&element.marks);
            no_filters(&element.filters) & ((1 <= n) & (n <= 15))
        }
        Answer::Bare(_) => no_filters(&element.filters) & no_marks(&element.marks),
        Answer::Refused(_) => false,
    }
}

// A place of a row into `out` from `at`; the place after it.
#[tactic(auto, unfolding(crate::specs::Write::entry_octets, crate::specs::Inner::Walk::place_octets))]
fn put_place(out: &mut [u8], at: usize, identifier: u8, filter: &Filter) -> usize
    requires { (at + 60 ≤ length out.old) × (identifier < place_count) × (held filter.now ≡ true → filter.now.direction ≤ largest_direction) }
    ensures put { Puts at (place_octets identifier filter.now) out.old out.new result }
    ensures few { result ≤ at + 60 }
{
    if !filter.held() {
        return at;
    }
    let end = put_contents(out, at + 3, filter);
    out[at] = filter.direction * 16 + identifier;
    out[at + 1] = filter.precedence;
    out[at + 2] = (end - (at + 3)) as u8;
    end
}

fn put_row(out: &mut [u8], at: usize, row: &[Filter; PLACES]) -> usize
    requires { (at + 960 ≤ length out.old) × (every place_fine row.now ≡ true) }
    ensures put { Puts at (entries_octets (entries_from 0 row.now)) out.old out.new result }
    ensures few { result ≤ at + 960 }
{
    let mut end = at;
    for (identifier, filter) in row.iter().enumerate() {
        end = put_place(out, end, identifier as u8, filter);
    }
    end
}

// A mark's identifier into `out` from `at`, where it is set; the place after it.
fn put_mark(out: &mut [u8], at: usize, identifier: u8, mark: bool) -> usize
    requires { at < length out.old }
    ensures put { Puts at (mark_octets identifier mark) out.old out.new result }
    ensures few { result ≤ at + 1 }
{
    if !mark {
        return at;
    }
    out[at] = identifier;
    at + 1
}

fn put_marks(out: &mut [u8], at: usize, marks: &[bool; PLACES]) -> usize
    requires { at + 16 ≤ length out.old }
    ensures put { Puts at (marks_from 0 marks.now) out.old out.new result }
    ensures few { result ≤ at + 16 }
{
    let mut end = at;
    for (identifier, mark) in marks.iter().enumerate() {
        end = put_mark(out, end, identifier as u8, *mark);
    }
    end
}

// The octets of an element that the reader could give, and how many they are.
#[tactic(auto, using(laws::proofs::Tests::both), unfolding(crate::specs::Write::given, crate::specs::Write::octets_of, crate::specs::Write::row_given))]
fn put_element(out: &mut [u8; MOST], element: &Element) -> usize
    requires { given element.now ≡ true }
    ensures put { Puts 0 (octets_of element.now) out.old out.new result }
    ensures few { result ≤ 961 }
{
    match element.answer {
        Answer::Filters(operation) => {
            out[0] = set_number(operation) * 32 + count_filters(&element.filters);
            put_row(out, 1, &element.filters)
        }
        Answer::Identifiers => {
            out[0] = DELETE_FILTERS * 32 + count_marks(&element.marks);
            put_marks(out, 1, &element.marks)
        }
        Answer::Bare(operation) => {
            out[0] = bare_number(operation) * 32;
            1
        }
        Answer::Refused(_) => 0,
    }
}

pub fn write(element: &Element, buffer: &mut [u8]) -> Result<usize, Unwritten>
    ensures { (result ≡ (write_of element.now buffer.old).written) × (buffer.new ≡ (write_of element.now buffer.old).buffer) }
{
    if !given_element(element) {
        return Err(Unwritten::NotGiven);
    }
    let mut octets = [0; MOST];
    let n = put_element(&mut octets, element);
    if LONGEST < n {
        return Err(Unwritten::TooLong);
    }
    if buffer.len() < n {
        return Err(Unwritten::NoRoom);
    }
    buffer[..n].copy_from_slice(&octets[..n]);
    Ok(n)
}

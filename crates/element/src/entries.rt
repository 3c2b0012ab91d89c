// A reader that holds the element's bytes and hands out the next entry.
ghost use Rattle.std.specs.Prelude.{◌≡◌, true, ◌+◌, ◌≤◌, ◌<◌, length, take, drop};
ghost use Rattle.std.specs.Iterator.{MakesProgress, YieldsFirstBy, item_count};
ghost use Rattle.element.specs.Framing.{split_of};
ghost use Rattle.element.specs.Numbers.{verdict_on, handed_number};
ghost use Rattle.element.specs.Read.{read_element};
ghost use Rattle.element.specs.Entries.{located_identifiers, located_of, nth_of, first_offset, cause_in, located_at, look_at, after_at, after_all, begun, advanced_of, skipped_of, next_of, entries_left};
ghost use Rattle.element.specs.Inner.Walk.{whole, located_split, handed_as, located_as};

use crate::answer::{Answer, Refusal, number};
use crate::framing::{Frame, RawFilter, frame_of, identifier_in, next_filter};
use crate::read::read;
use filter::Filter;

// A filter comes with its identifier. Not an Option of a Result: the cause and the end are told again and again, and `nth_of` and `look_at` name all four.
#[derive(Clone, Copy)]
pub enum Handed {
    Filter(u8, Filter),
    Identifier(u8),
    Refused(Refusal),
    End,
}

// Its number: 0, or the cause.
pub fn handed_number(handed: Handed) -> u8
    ensures { result ≡ handed_number handed }
{
    match handed {
        Handed::Refused(refusal) => number(Answer::Refused(refusal)),
        Handed::Filter(_, _) | Handed::Identifier(_) => 0,
        Handed::End => 0,
    }
}

// An entry as it stands in the value.
#[derive(Clone, Copy)]
pub enum RawEntry<'a> {
    Filter(RawFilter<'a>),
    Identifier(u8),
}

impl RawEntry<'_> {
    // A badly coded filter is no entry.
    fn handed(&self) -> Handed
        ensures { result ≡ handed_as self.now }
    {
        match self {
            RawEntry::Filter(raw) => match raw.decoded() {
                Some(filter) => Handed::Filter(raw.identifier(), filter),
                None => Handed::End,
            },
            RawEntry::Identifier(identifier) => Handed::Identifier(*identifier),
        }
    }
}

#[derive(Clone, Copy)]
pub struct Entries<'a> {
    value: &'a [u8],
    at: usize,
}

// The one of so many filters that begins at `at`, and the offset after it.
fn filter_at(value: &[u8], count: u8, at: usize) -> Option<(RawEntry, usize)>
    requires { (0 < length value.now) × (whole (split_of count (drop 1 value.now)) ≡ true) }
    ensures { located_as at result ≡ located_at (located_split 1 (split_of count (drop 1 value.now))) at }
{
    let mut rest = &value[1..];
    for _ in 0..count {
        let Some((filter, after)) = next_filter(rest) else {
            unreachable!();
        };
        if value.len() - rest.len() == at {
            return Some((RawEntry::Filter(filter), value.len() - after.len()));
        }
        rest = after;
    }
    None
}

// The one of n identifiers that is at `at`, each of which is one octet, and the offset after it.
#[tactic(auto, using(crate::proofs::Offsets::identifier_before, crate::proofs::Offsets::identifier_past_lem, crate::proofs::Offsets::identifier_there))]
fn identifier_at(value: &[u8], n: u8, at: usize) -> Option<(RawEntry, usize)>
    requires { 1 + n ≤ length value.now }
    ensures { located_as at result ≡ located_at (located_identifiers 1 (take n (drop 1 value.now))) at }
{
    if at < 1 || usize::from(n) < at {
        return None;
    }
    Some((RawEntry::Identifier(identifier_in(value[at])), at + 1))
}

// The entry that begins at `at`, and the offset after it.
fn entry_at(value: &[u8], at: usize) -> Option<(RawEntry, usize)>
    ensures { located_as at result ≡ located_at (located_of value.now) at }
{
    let Ok(frame) = frame_of(value) else {
        return None;
    };
    match frame {
        Frame::Filters(_, n) => filter_at(value, n, at),
        Frame::Identifiers(n) => identifier_at(value, n, at),
        Frame::Bare(_) => None,
    }
}

fn cause_of(value: &[u8]) -> Handed
    ensures { result ≡ cause_in (verdict_on (read_element value.now).answer) }
{
    match read(value).answer {
        Answer::Refused(refusal) => Handed::Refused(refusal),
        Answer::Filters(_) | Answer::Identifiers | Answer::Bare(_) => Handed::End,
    }
}

// The element is judged here, once; from 1 on no offset asks for it again.
#[tactic(auto, unfolding(crate::specs::Entries::first_offset))]
fn start(value: &[u8]) -> usize
    ensures { result ≡ first_offset value.now }
{
    match read(value).answer {
        Answer::Refused(_) => 0,
        Answer::Filters(_) | Answer::Identifiers | Answer::Bare(_) => 1,
    }
}

#[tactic(auto, unfolding(crate::specs::Entries::look_at))]
fn look_at(value: &[u8], at: usize) -> Handed
    ensures { result ≡ look_at value.now at }
{
    if at == 0 {
        return cause_of(value);
    }
    match entry_at(value, at) {
        Some((entry, _)) => entry.handed(),
        None => Handed::End,
    }
}

#[tactic(auto, unfolding(crate::specs::Entries::after_at))]
fn after(value: &[u8], at: usize) -> usize
    ensures { result ≡ after_at value.now at }
{
    match entry_at(value, at) {
        Some((_, after)) => after,
        None => at,
    }
}

#[tactic(auto, unfolding(crate::specs::Entries::after_all))]
fn after_all(value: &[u8], at: usize, n: u8) -> usize
    ensures { result ≡ after_all value.now at n }
{
    let mut to = at;
    for _ in 0..n {
        to = after(value, to);
    }
    to
}

impl<'a> Entries<'a> {
    pub fn new(value: &'a [u8]) -> Entries<'a>
        ensures { result ≡ begun value.entry }
    {
        let at = start(value);
        Entries { value, at }
    }

    pub fn look(&self) -> Handed
        ensures { result ≡ look_at self.now.value.now self.now.at }
    {
        look_at(self.value, self.at)
    }

    pub fn advanced(&self) -> Entries<'a>
        ensures { result ≡ advanced_of self.now }
    {
        let at = after(self.value, self.at);
        Entries {
            value: self.value,
            at,
        }
    }

    pub fn skipped(&self, n: u8) -> Entries<'a>
        ensures { result ≡ skipped_of self.now n }
    {
        let at = after_all(self.value, self.at, n);
        Entries {
            value: self.value,
            at,
        }
    }
}

// The entries that are left. An element that reads as a cause has none: `look` tells the cause, then as before.
impl<'a> Iterator for Entries<'a> {
    type Item = Handed;

    ghost next_gives = { YieldsFirstBy (λ handed. handed) entries_left };

    ghost remaining = { item_count entries_left };

    fn next(&mut self) -> Option<Handed>
        ensures steps { YieldsFirstBy (λ handed. handed) entries_left self.old result self.new }
        ensures goes { MakesProgress (λ e. Unit {0}) (item_count entries_left) self.old result self.new }
        ensures after { self.new ≡ next_of self.old }
    {
        match self.look() {
            Handed::Filter(identifier, filter) => {
                *self = self.advanced();
                Some(Handed::Filter(identifier, filter))
            }
            Handed::Identifier(identifier) => {
                *self = self.advanced();
                Some(Handed::Identifier(identifier))
            }
            Handed::Refused(_) | Handed::End => None,
        }
    }
}

// Entry n, counted from 0.
#[tactic(auto, using(crate::proofs::Stepping::nth_steps))]
pub fn nth(value: &[u8], n: u8) -> Handed
    ensures { result ≡ nth_of value.now n }
{
    Entries::new(value).skipped(n).look()
}

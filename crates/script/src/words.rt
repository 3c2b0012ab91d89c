// The words of a line, and what they are read as.
ghost use Rattle.std.specs.Prelude.{◌<◌, ◌≤◌, length, IfSome, OnSome};

use crate::error::BadLine;
use filter::Address;
use filter::component::PLACES;
use std::str;
use std::str::FromStr;
use table::bearer::is_identity;

const MOST_DIGITS: usize = 10;

const MOST_DOTTED_DIGITS: usize = 3;

// HEX is at most so many octets.
pub const MOST_OCTETS: usize = 512;

pub(crate) const ADDRESS_OCTETS: usize = 16;

// A number of at most `MOST`.
#[derive(Clone, Copy)]
pub struct AtMost<const MOST: usize> {
    pub value: usize,
    ghost in_range: { value ≤ MOST },
}

const LAST_PLACE: usize = PLACES - 1;

// A place of a row, the identifier of the filter that stands there.
pub type Place = AtMost<LAST_PLACE>;

pub const LARGEST_ROOM: usize = 512;

// The size of a buffer.
pub type Room = AtMost<LARGEST_ROOM>;

// The value of an element: octets, or those that were fed.
#[derive(Clone, Copy)]
pub enum Value<'a> {
    Octets(&'a [u8]),
    Fed,
}

// What is left of a line.
#[derive(Clone, Copy)]
pub(crate) struct Words<'a> {
    rest: &'a [u8],
}

fn without_spaces(line: &[u8]) -> &[u8]
    ensures { length result.now ≤ length line.now }
{
    match line.iter().position(|octet| *octet != b' ') {
        Some(start) => &line[start..],
        None => &[],
    }
}

// A number in decimal digits, with no sign.
fn number<T: FromStr>(word: &[u8]) -> Result<T, BadLine>
where
    T::Err: Drop,
{
    if word.len() > MOST_DIGITS || !word.iter().all(|octet| octet.is_ascii_digit()) {
        return Err(BadLine);
    }
    let Ok(digits) = str::from_utf8(word) else {
        return Err(BadLine);
    };
    match digits.parse::<T>() {
        Ok(value) => Ok(value),
        Err(_) => Err(BadLine),
    }
}

// A hexadecimal digit, in either case.
fn digit(octet: u8) -> Option<u8>
    ensures { IfSome result (λ value. value < 16) }
{
    match octet {
        b'0'..=b'9' => Some(octet - b'0'),
        b'a'..=b'f' => Some(octet - b'a' + 10),
        b'A'..=b'F' => Some(octet - b'A' + 10),
        _ => None,
    }
}

// An even number of hexadecimal digits, or `-` for no octets. The octets are put at the start of `room`.
pub(crate) fn decode<'r>(word: &[u8], room: &'r mut [u8]) -> Result<&'r [u8], BadLine> {
    if let b"-" = word {
        return Ok(&[]);
    }
    let octets = room.get_mut(..word.len() / 2).ok_or(BadLine)?;
    let (pairs, []) = word.as_chunks::<2>() else {
        return Err(BadLine);
    };
    for (octet, [high, low]) in octets.iter_mut().zip(pairs) {
        *octet = digit(*high).ok_or(BadLine)? * 16 + digit(*low).ok_or(BadLine)?;
    }
    Ok(octets)
}

// Four numbers of at most 255.
fn dotted(word: &[u8]) -> Option<[u8; 4]> {
    let mut parts = word.split(|octet| *octet == b'.');
    let mut address = [0; 4];
    for octet in &mut address {
        let part = parts.next()?;
        if part.len() > MOST_DOTTED_DIGITS {
            return None;
        }
        *octet = number(part).ok()?;
    }
    match parts.next() {
        None => Some(address),
        Some(_) => None,
    }
}

// Sixteen octets, the highest first.
pub(crate) fn sixteen(octets: &[u8]) -> Result<Address, BadLine> {
    let ([high, low], []) = octets.as_chunks::<8>() else {
        return Err(BadLine);
    };
    Ok(Address {
        high: u64::from_be_bytes(*high),
        low: u64::from_be_bytes(*low),
    })
}

impl<'a> Words<'a> {
    pub(crate) fn new(line: &'a [u8]) -> Words<'a> {
        Words { rest: line }
    }

    pub(crate) fn next(&mut self) -> Option<&'a [u8]>
        ensures fewer { OnSome result (length self.new.rest.now < length self.old.rest.now) }
        ensures shorter { length self.new.rest.now ≤ length self.old.rest.now }
    {
        let line = without_spaces(self.rest);
        let (_first, others) = line.split_first()?;
        let more = others
            .iter()
            .position(|octet| *octet == b' ')
            .unwrap_or(others.len());
        let (word, rest) = line.split_at(1 + more);
        self.rest = rest;
        Some(word)
    }

    pub(crate) fn word(&mut self) -> Result<&'a [u8], BadLine>
        ensures { length self.new.rest.now ≤ length self.old.rest.now }
    {
        self.next().ok_or(BadLine)
    }

    // Of at most ten digits, and as large as its type takes.
    pub(crate) fn number<T: FromStr>(&mut self) -> Result<T, BadLine>
    where
        T::Err: Drop,
    {
        number(self.word()?)
    }

    pub(crate) fn at_most<const MOST: usize>(&mut self) -> Result<AtMost<MOST>, BadLine> {
        let value = self.number()?;
        if value > MOST {
            return Err(BadLine);
        }
        Ok(AtMost { value })
    }

    // The identity of a bearer of the table.
    pub(crate) fn identity(&mut self) -> Result<u8, BadLine> {
        let identity = self.number()?;
        if is_identity(identity) {
            Ok(identity)
        } else {
            Err(BadLine)
        }
    }

    pub(crate) fn hex<'r>(&mut self, room: &'r mut [u8]) -> Result<&'r [u8], BadLine>
        ensures { length self.new.rest.now ≤ length self.old.rest.now }
    {
        decode(self.word()?, room)
    }

    // HEX, or the word `fed`.
    pub(crate) fn value<'r>(&mut self, room: &'r mut [u8]) -> Result<Value<'r>, BadLine> {
        match self.word()? {
            b"fed" => Ok(Value::Fed),
            word => Ok(Value::Octets(decode(word, room)?)),
        }
    }

    // HEX, or the word `none`.
    pub(crate) fn tft<'r>(&mut self, room: &'r mut [u8]) -> Result<Option<&'r [u8]>, BadLine> {
        match self.word()? {
            b"none" => Ok(None),
            word => Ok(Some(decode(word, room)?)),
        }
    }

    // Sixteen octets in HEX, or a dotted IPv4 address: its four octets, and zero for the other twelve.
    pub(crate) fn address(&mut self) -> Result<Address, BadLine> {
        let word = self.word()?;
        match dotted(word) {
            Some(address) => Ok(Address {
                high: u64::from(u32::from_be_bytes(address)) << 32,
                low: 0,
            }),
            None => sixteen(decode(word, &mut [0; ADDRESS_OCTETS])?),
        }
    }

    // Nothing more stands in the line.
    pub(crate) fn end(&self) -> Result<(), BadLine> {
        if self.rest.iter().all(|octet| *octet == b' ') {
            Ok(())
        } else {
            Err(BadLine)
        }
    }
}

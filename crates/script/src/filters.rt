// A filter built from the words of a line, and its line.
use crate::error::BadLine;
use crate::words::{ADDRESS_OCTETS, Place, Words, decode, sixteen};
use filter::component::{
    CLASS, INDEX, IPV4_REMOTE, IPV6_REMOTE, LABEL, LOCAL_PORT, LOCAL_RANGE, PLACES, PROTOCOL,
    REMOTE_PORT, REMOTE_RANGE,
};
use filter::{Class, Filter, Port, RemoteAddress};
use std::fmt;
use std::net::Ipv4Addr;

// An IPv6 address and its mask.
const LONGEST_COMPONENT: usize = 2 * ADDRESS_OCTETS;

// A filter, and the place that it is to have.
#[derive(Clone, Copy)]
pub struct Placed {
    pub place: Place,
    pub filter: Filter,
}

impl Placed {
    // The filter is built as often as the line is to be done.
    pub(crate) fn read(words: &mut Words<'_>, times: usize) -> Result<Placed, BadLine> {
        let place = words.at_most()?;
        let bare = Filter::bare(words.number()?, words.number()?);
        let components = *words;
        let mut filter = built(bare, words)?;
        for _ in 1..times {
            let mut again = components;
            filter = built(bare, &mut again)?;
        }
        Ok(Placed { place, filter })
    }
}

// With a component more for every two words that are left.
fn built(bare: Filter, words: &mut Words<'_>) -> Result<Filter, BadLine> {
    let mut filter = bare;
    let mut octets = [0; LONGEST_COMPONENT];
    while let Some(word) = words.next() {
        let component = component_type(word)?;
        filter = with_component(filter, component, words.hex(&mut octets)?)?;
    }
    Ok(filter)
}

fn component_type(word: &[u8]) -> Result<u8, BadLine> {
    match decode(word, &mut [0])? {
        &[component] => Ok(component),
        _ => Err(BadLine),
    }
}

// The filter with a component more, or as it was where it cannot have that.
fn with_component(filter: Filter, component: u8, octets: &[u8]) -> Result<Filter, BadLine> {
    Ok(match (component, octets) {
        (IPV4_REMOTE, &[a, b, c, d, e, f, g, h]) => filter.with_ipv4_remote(
            u32::from_be_bytes([a, b, c, d]),
            u32::from_be_bytes([e, f, g, h]),
        ),
        (IPV6_REMOTE, octets) => {
            let (address, mask) = octets.split_at_checked(ADDRESS_OCTETS).ok_or(BadLine)?;
            filter.with_ipv6_remote(sixteen(address)?, sixteen(mask)?)
        }
        (PROTOCOL, &[protocol]) => filter.with_protocol(protocol),
        (LOCAL_PORT, &[a, b]) => filter.with_local_port(u16::from_be_bytes([a, b])),
        (LOCAL_RANGE, &[a, b, c, d]) => {
            filter.with_local_range(u16::from_be_bytes([a, b]), u16::from_be_bytes([c, d]))
        }
        (REMOTE_PORT, &[a, b]) => filter.with_remote_port(u16::from_be_bytes([a, b])),
        (REMOTE_RANGE, &[a, b, c, d]) => {
            filter.with_remote_range(u16::from_be_bytes([a, b]), u16::from_be_bytes([c, d]))
        }
        (INDEX, &[a, b, c, d]) => filter.with_index(u32::from_be_bytes([a, b, c, d])),
        (CLASS, &[class, mask]) => filter.with_class(class, mask),
        (LABEL, &[a, b, c, d]) => filter.with_label(u32::from_be_bytes([a, b, c, d])),
        _ => return Err(BadLine),
    })
}

// The line of the filter at a place, without its indent; its components stand in rising type.
#[derive(Clone, Copy)]
pub struct FilterLine<'a> {
    pub place: usize,
    pub filter: &'a Filter,
}

impl fmt::Display for FilterLine<'_> {
    fn fmt<W: fmt::Write>(&self, f: &mut fmt::Formatter<W>) -> fmt::Result {
        let FilterLine { place, filter } = *self;
        let Filter {
            precedence,
            direction,
            ..
        } = *filter;
        write!(
            f,
            "filter {place} precedence {precedence} direction {direction}"
        )?;
        write_remote(f, filter.address)?;
        if let Some(protocol) = filter.protocol {
            write!(f, " protocol {protocol}")?;
        }
        write_port(f, " local-port ", " local-range ", filter.local)?;
        write_port(f, " remote-port ", " remote-range ", filter.remote)?;
        if let Some(index) = filter.index {
            write!(f, " index {index}")?;
        }
        if let Some(Class { class, mask }) = filter.class {
            write!(f, " class {class}/{mask}")?;
        }
        if let Some(label) = filter.label {
            write!(f, " label {label}")?;
        }
        Ok(())
    }
}

fn write_remote<W: fmt::Write>(f: &mut fmt::Formatter<W>, address: RemoteAddress) -> fmt::Result {
    match address {
        RemoteAddress::Absent => Ok(()),
        RemoteAddress::V4 { address, mask } => {
            write!(
                f,
                " remote4 {}/{}",
                Ipv4Addr::from(address),
                Ipv4Addr::from(mask)
            )
        }
        RemoteAddress::V6 { address, mask } => write!(
            f,
            " remote6 {:016X}{:016X}/{:016X}{:016X}",
            address.high, address.low, mask.high, mask.low
        ),
    }
}

fn write_port<W: fmt::Write>(
    f: &mut fmt::Formatter<W>,
    one: &str,
    range: &str,
    port: Port,
) -> fmt::Result {
    match port {
        Port::Absent => Ok(()),
        Port::Is(port) => {
            f.write_str(one)?;
            fmt::Display::fmt(&port, f)
        }
        Port::Range { low, high } => {
            f.write_str(range)?;
            write!(f, "{low}-{high}")
        }
    }
}

// A line for each filter of a row, in rising identifier.
#[derive(Clone, Copy)]
pub struct Row<'a>(pub &'a [Filter; PLACES]);

impl fmt::Display for Row<'_> {
    fn fmt<W: fmt::Write>(&self, f: &mut fmt::Formatter<W>) -> fmt::Result {
        for (place, filter) in self.0.iter().enumerate() {
            if !filter.empty_place() {
                // By itself, and not in a `write!`: one in another takes longer, though hardly more instructions.
                f.write_str("  ")?;
                fmt::Display::fmt(&FilterLine { place, filter }, f)?;
                f.write_str("\n")?;
            }
        }
        Ok(())
    }
}

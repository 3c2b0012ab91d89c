// A filter's contents: one component after the other.
ghost use Rattle.std.specs.Prelude.{◌≡◌, true, ◌%◌, ◌^◌, length};
ghost use Rattle.laws.specs.Octets.{be_of};
ghost use Rattle.filter.specs.Build.{added};
ghost use Rattle.element.specs.Contents.{length_of, known, address_of, component_of, contents_of};
ghost use Rattle.element.specs.Inner.Walk.{Gives, next_component};

use crate::lengths::component_length;
use filter::component::{
    CLASS, INDEX, IPV4_REMOTE, IPV6_REMOTE, LABEL, LOCAL_PORT, LOCAL_RANGE, PROTOCOL, REMOTE_PORT,
    REMOTE_RANGE,
};
use filter::{Address, Filter};

#[tactic(auto, unfolding(laws::specs::Octets::be_from))]
fn address_of(octets: [u8; 16]) -> Address
    ensures { result ≡ address_of octets }
{
    let [a, b, c, d, e, f, g, h, i, j, k, l, m, n, o, p] = octets;
    Address {
        high: u64::from_be_bytes([a, b, c, d, e, f, g, h]),
        low: u64::from_be_bytes([i, j, k, l, m, n, o, p]),
    }
}

// A flow label's top four bits are spare.
#[tactic(auto, unfolding(laws::specs::Octets::be_from))]
fn label_of(octets: [u8; 3]) -> u32
    ensures { result ≡ be_of octets % 2 ^ 20 }
{
    let [a, b, c] = octets;
    u32::from_be_bytes([0, a, b, c]) % 1048576
}

// The filter with the component of a known type, which has these octets.
#[tactic(auto, unfolding(crate::specs::Contents::component_of, crate::specs::Contents::length_of, laws::specs::Octets::be_from))]
fn with_component(filter: Filter, kind: u8, octets: &[u8]) -> Filter
    requires { (length octets.now ≡ length_of kind) × (known kind ≡ true) }
    ensures { result ≡ added filter (component_of kind octets.now) }
{
    match (kind, octets) {
        (IPV4_REMOTE, [a, b, c, d, e, f, g, h]) => filter.with_ipv4_remote(
            u32::from_be_bytes([*a, *b, *c, *d]),
            u32::from_be_bytes([*e, *f, *g, *h]),
        ),
        (IPV6_REMOTE, octets) => {
            let (address, mask) = octets.split_at(16);
            filter.with_ipv6_remote(
                address_of(address.try_into().unwrap()),
                address_of(mask.try_into().unwrap()),
            )
        }
        (PROTOCOL, [protocol]) => filter.with_protocol(*protocol),
        (LOCAL_PORT, [a, b]) => filter.with_local_port(u16::from_be_bytes([*a, *b])),
        (LOCAL_RANGE, [a, b, c, d]) => filter.with_local_range(
            u16::from_be_bytes([*a, *b]),
            u16::from_be_bytes([*c, *d]),
        ),
        (REMOTE_PORT, [a, b]) => filter.with_remote_port(u16::from_be_bytes([*a, *b])),
        (REMOTE_RANGE, [a, b, c, d]) => filter.with_remote_range(
            u16::from_be_bytes([*a, *b]),
            u16::from_be_bytes([*c, *d]),
        ),
        (INDEX, [a, b, c, d]) => filter.with_index(u32::from_be_bytes([*a, *b, *c, *d])),
        (CLASS, [class, mask]) => filter.with_class(*class, *mask),
        (LABEL, [a, b, c]) => filter.with_label(label_of([*a, *b, *c])),
        _ => unreachable!(),
    }
}

#[tactic(auto, unfolding(crate::specs::Inner::Walk::next_component))]
fn next_component(filter: Filter, octets: &[u8]) -> Option<(Filter, &[u8])>
    ensures { Gives (λ x. (x.0, x.1.now)) result (next_component filter octets.now) }
{
    let [kind, rest @ ..] = octets else {
        return None;
    };
    let length = component_length(*kind);
    if length == 0 || filter.excludes_type(*kind) {
        return None;
    }
    let (value, rest) = rest.split_at_checked(length)?;
    Some((with_component(filter, *kind, value), rest))
}

// What all the octets say, the filter being without a component.
pub(crate) fn read_contents(filter: Filter, octets: &[u8]) -> Option<Filter>
    ensures { result ≡ contents_of filter octets.now }
{
    if octets.is_empty() {
        return None;
    }
    let mut held = filter;
    let mut rest = octets;
    while !rest.is_empty() {
        (held, rest) = next_component(held, rest)?;
    }
    Some(held)
}

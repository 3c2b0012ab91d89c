// A filter's components as they are written, each into `out` from `at`; the place after it.
ghost use Rattle.std.specs.Prelude.{◌≡◌, ◌+◌, ◌≤◌, length};
ghost use Rattle.element.specs.Write.{address_bytes, remote_octets, protocol_octets, port_octets, index_octets, class_octets, label_octets, contents_octets};
ghost use Rattle.element.specs.Inner.Walk.{Puts};

use crate::octets::put;
use filter::component::{
    CLASS, INDEX, IPV4_REMOTE, IPV6_REMOTE, LABEL, LOCAL_PORT, LOCAL_RANGE, PROTOCOL, REMOTE_PORT,
    REMOTE_RANGE,
};
use filter::{Address, Class, Filter, Port, RemoteAddress};

#[tactic(auto, using(crate::proofs::Writing::puts_join), unfolding(laws::specs::Octets::be_bytes))]
fn put_address(out: &mut [u8], at: usize, address: &Address) -> usize
    requires { at + 16 ≤ length out.old }
    ensures { Puts at (address_bytes address.now) out.old out.new result }
{
    let at = put(out, at, &address.high.to_be_bytes());
    put(out, at, &address.low.to_be_bytes())
}

#[tactic(auto, unfolding(laws::specs::Octets::be_bytes))]
fn put_remote(out: &mut [u8], at: usize, address: &RemoteAddress) -> usize
    requires { at + 33 ≤ length out.old }
    ensures put { Puts at (remote_octets address.now) out.old out.new result }
    ensures few { result ≤ at + 33 }
{
    match address {
        RemoteAddress::Absent => at,
        RemoteAddress::V4 { address, mask } => {
            let [a, b, c, d] = address.to_be_bytes();
            let [e, f, g, h] = mask.to_be_bytes();
            put(out, at, &[IPV4_REMOTE, a, b, c, d, e, f, g, h])
        }
        RemoteAddress::V6 { address, mask } => {
            let at = put(out, at, &[IPV6_REMOTE]);
            let at = put_address(out, at, address);
            put_address(out, at, mask)
        }
    }
}

#[tactic(auto, unfolding(laws::specs::Octets::be_bytes))]
fn put_protocol(out: &mut [u8], at: usize, protocol: Option<u8>) -> usize
    requires { at + 2 ≤ length out.old }
    ensures put { Puts at (protocol_octets protocol) out.old out.new result }
    ensures few { result ≤ at + 2 }
{
    match protocol {
        None => at,
        Some(protocol) => put(out, at, &[PROTOCOL, protocol]),
    }
}

// The type of one port is `one`, that of a range `range`.
#[tactic(auto, unfolding(laws::specs::Octets::be_bytes))]
fn put_port(out: &mut [u8], at: usize, one: u8, range: u8, port: &Port) -> usize
    requires { at + 5 ≤ length out.old }
    ensures put { Puts at (port_octets one range port.now) out.old out.new result }
    ensures few { result ≤ at + 5 }
{
    match port {
        Port::Absent => at,
        Port::Is(port) => {
            let [a, b] = port.to_be_bytes();
            put(out, at, &[one, a, b])
        }
        Port::Range { low, high } => {
            let [a, b] = low.to_be_bytes();
            let [c, d] = high.to_be_bytes();
            put(out, at, &[range, a, b, c, d])
        }
    }
}

#[tactic(auto, unfolding(laws::specs::Octets::be_bytes))]
fn put_index(out: &mut [u8], at: usize, index: Option<u32>) -> usize
    requires { at + 5 ≤ length out.old }
    ensures put { Puts at (index_octets index) out.old out.new result }
    ensures few { result ≤ at + 5 }
{
    match index {
        None => at,
        Some(index) => {
            let [a, b, c, d] = index.to_be_bytes();
            put(out, at, &[INDEX, a, b, c, d])
        }
    }
}

#[tactic(auto, unfolding(laws::specs::Octets::be_bytes))]
fn put_class(out: &mut [u8], at: usize, class: &Option<Class>) -> usize
    requires { at + 3 ≤ length out.old }
    ensures put { Puts at (class_octets class.now) out.old out.new result }
    ensures few { result ≤ at + 3 }
{
    match class {
        None => at,
        Some(Class { class, mask }) => put(out, at, &[CLASS, *class, *mask]),
    }
}

#[tactic(auto, unfolding(laws::specs::Octets::be_bytes))]
fn put_label(out: &mut [u8], at: usize, label: Option<u32>) -> usize
    requires { at + 4 ≤ length out.old }
    ensures put { Puts at (label_octets label) out.old out.new result }
    ensures few { result ≤ at + 4 }
{
    match label {
        None => at,
        Some(label) => {
            let [_, a, b, c] = label.to_be_bytes();
            put(out, at, &[LABEL, a, b, c])
        }
    }
}

// In rising type.
#[tactic(auto, unfolding(crate::specs::Write::contents_octets))]
pub(crate) fn put_contents(out: &mut [u8], at: usize, filter: &Filter) -> usize
    requires { at + 57 ≤ length out.old }
    ensures put { Puts at (contents_octets filter.now) out.old out.new result }
    ensures few { result ≤ at + 57 }
{
    let at = put_remote(out, at, &filter.address);
    let at = put_protocol(out, at, filter.protocol);
    let at = put_port(out, at, LOCAL_PORT, LOCAL_RANGE, &filter.local);
    let at = put_port(out, at, REMOTE_PORT, REMOTE_RANGE, &filter.remote);
    let at = put_index(out, at, filter.index);
    let at = put_class(out, at, &filter.class);
    put_label(out, at, filter.label)
}

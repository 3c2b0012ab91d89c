// A packet's header, as far as filters look at it.
ghost use Rattle.std.specs.Prelude.{◌≡◌};
ghost use Rattle.filter.specs.Fit.{carries_ports, carries_index, carries_label, first_four, valid_header};

use crate::component::{Address, LARGEST_LABEL};

// `address` is the remote address, `local` and `remote` are the ports.
#[derive(Clone, Copy, PartialEq, Eq)]
pub struct Header {
    pub version: u8,
    pub address: Address,
    pub protocol: u8,
    pub local: u16,
    pub remote: u16,
    pub index: u32,
    pub class: u8,
    pub label: u32,
}

impl Header {
    #[tactic(auto, unfolding(crate::specs::Fit::valid_header))]
    pub fn valid_header(&self) -> bool
        ensures { result ≡ valid_header self.now }
    {
        self.version == 4 || self.version == 6 && self.label <= LARGEST_LABEL
    }
}

impl Address {
    pub(crate) fn first_four(&self) -> u32
        ensures { result ≡ first_four self.now }
    {
        (self.high / 4294967296) as u32
    }
}

pub(crate) fn carries_ports(protocol: u8) -> bool
    ensures { result ≡ carries_ports protocol }
{
    protocol == 6 || protocol == 17 || protocol == 132
}

pub(crate) fn carries_index(protocol: u8) -> bool
    ensures { result ≡ carries_index protocol }
{
    protocol == 50 || protocol == 51
}

pub(crate) fn carries_label(version: u8) -> bool
    ensures { result ≡ carries_label version }
{
    version == 6
}

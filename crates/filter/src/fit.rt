// When a filter fits a header.
ghost use Rattle.std.specs.Prelude.{◌≡◌};
ghost use Rattle.filter.specs.Fit.{agrees_address, agrees_port, agrees_class, agrees_transport, agrees_network, fits};

use crate::component::{Class, Filter, Port, RemoteAddress};
use crate::packet::{Header, carries_index, carries_label, carries_ports};

impl RemoteAddress {
    #[tactic(auto, using(laws::proofs::Masks::same_and))]
    fn agrees(&self, header: &Header) -> bool
        ensures { result ≡ agrees_address self.now header.now.version header.now.address }
    {
        match self {
            RemoteAddress::Absent => true,
            RemoteAddress::V4 { address, mask } => {
                header.version == 4 && address & mask == header.address.first_four() & mask
            }
            RemoteAddress::V6 { address, mask } => {
                header.version == 6
                    && address.high & mask.high == header.address.high & mask.high
                    && address.low & mask.low == header.address.low & mask.low
            }
        }
    }
}

impl Port {
    fn agrees(&self, protocol: u8, port: u16) -> bool
        ensures { result ≡ agrees_port self.now protocol port }
    {
        match self {
            Port::Absent => true,
            Port::Is(number) => carries_ports(protocol) && *number == port,
            Port::Range { low, high } => carries_ports(protocol) && *low <= port && port <= *high,
        }
    }
}

impl Class {
    #[tactic(auto, using(laws::proofs::Masks::same_and))]
    fn agrees(&self, class: u8) -> bool
        ensures { result ≡ agrees_class (Some self.now) class }
    {
        self.class & self.mask == class & self.mask
    }
}

impl Filter {
    // The components on the protocol and on fields that count only for some protocols.
    #[tactic(auto, unfolding(crate::specs::Fit::agrees_transport))]
    fn agrees_transport(&self, header: &Header) -> bool
        ensures { result ≡ agrees_transport self.now header.now }
    {
        self.protocol
            .is_none_or(|protocol| protocol == header.protocol)
            && self.local.agrees(header.protocol, header.local)
            && self.remote.agrees(header.protocol, header.remote)
            && self.index.is_none_or(|index| carries_index(header.protocol)
                && index == header.index)
    }

    // The others.
    #[tactic(auto, unfolding(crate::specs::Fit::agrees_network))]
    fn agrees_network(&self, header: &Header) -> bool
        ensures { result ≡ agrees_network self.now header.now }
    {
        self.address.agrees(header)
            && self.class.is_none_or(|class| class.agrees(header.class))
            && self.label.is_none_or(|label| carries_label(header.version) && label == header.label)
    }

    #[tactic(auto, unfolding(crate::specs::Fit::agrees_transport, crate::specs::Fit::fits))]
    pub fn fits(&self, header: &Header) -> bool
        ensures { result ≡ fits self.now header.now }
    {
        self.agrees_transport(header) && self.agrees_network(header)
    }
}

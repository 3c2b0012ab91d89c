// Whether any packet fits a filter. The packet that the filter itself describes is in the definition and is not built here: the answer depends
// only on whether one version and one protocol suit all components, and on the order of a range's ends.
ghost use Rattle.std.specs.Prelude.{◌≡◌, is_some};
ghost use Rattle.filter.specs.Fittable.{fittable, place_fine};
ghost use Rattle.filter.specs.Inner.Asked.{some_port, in_order, some_version, some_protocol};

use crate::coding::LARGEST_DIRECTION;
use crate::component::{Filter, LARGEST_LABEL, Port, RemoteAddress};
use crate::packet::{carries_index, carries_ports};

impl Port {
    fn is_there(&self) -> bool
        ensures { result ≡ some_port self.now }
    {
        match self {
            Port::Absent => false,
            Port::Is(_) | Port::Range { .. } => true,
        }
    }

    fn in_order(&self) -> bool
        ensures { result ≡ in_order self.now }
    {
        match self {
            Port::Absent | Port::Is(_) => true,
            Port::Range { low, high } => low <= high,
        }
    }
}

impl Filter {
    fn some_version(&self) -> bool
        ensures { result ≡ some_version self.now.address self.now.label }
    {
        match self.label {
            None => true,
            Some(label) => match self.address {
                RemoteAddress::V4 { .. } => false,
                RemoteAddress::Absent | RemoteAddress::V6 { .. } => label <= LARGEST_LABEL,
            },
        }
    }

    fn some_protocol(&self, ports: bool) -> bool
        ensures { result ≡ some_protocol self.now.protocol ports (is_some self.now.index) }
    {
        let index = self.index.is_some();
        match self.protocol {
            None => !(ports && index),
            Some(protocol) => {
                (!ports || carries_ports(protocol)) && (!index || carries_index(protocol))
            }
        }
    }

    #[tactic(auto, using(crate::proofs::Asked::fittable_is), unfolding(crate::specs::Inner::Asked::asked))]
    pub fn fittable(&self) -> bool
        ensures { result ≡ fittable self.now }
    {
        self.some_version()
            && self.some_protocol(self.local.is_there() || self.remote.is_there())
            && self.local.in_order()
            && self.remote.in_order()
    }

    // Whether it may stand in a place of a row: an empty one, or one that is well coded and fits some packet.
    #[tactic(auto, using(crate::proofs::Asked::held_fine, crate::proofs::Asked::unheld_fine))]
    pub fn place_fine(&self) -> bool
        ensures { result ≡ place_fine self.now }
    {
        if self.held() {
            self.direction <= LARGEST_DIRECTION && self.fittable()
        } else {
            self.precedence == 0 && self.direction == 0
        }
    }
}

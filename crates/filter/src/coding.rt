// Tests of a filter by itself.
ghost use Rattle.std.specs.Prelude.{◌≡◌};
ghost use Rattle.filter.specs.Coding.{held, well_coded, empty_place, uplink};

use crate::component::{Filter, LARGEST_LABEL, LOCAL_PORT, LOCAL_RANGE, REMOTE_PORT, REMOTE_RANGE};

pub(crate) const LARGEST_DIRECTION: u8 = 3;

impl Filter {
    // Whether it holds a component.
    #[tactic(auto, unfolding(crate::specs::Coding::held))]
    pub fn held(&self) -> bool
        ensures { result ≡ held self.now }
    {
        self.address.type_octet() != 0
            || self.protocol.is_some()
            || self.local.type_octet(LOCAL_PORT, LOCAL_RANGE) != 0
            || self.remote.type_octet(REMOTE_PORT, REMOTE_RANGE) != 0
            || self.index.is_some()
            || self.class.is_some()
            || self.label.is_some()
    }

    #[tactic(auto, unfolding(crate::specs::Coding::well_coded))]
    pub fn well_coded(&self) -> bool
        ensures { result ≡ well_coded self.now }
    {
        self.held()
            && self.direction <= LARGEST_DIRECTION
            && self.label.is_none_or(|label| label <= LARGEST_LABEL)
    }

    #[tactic(auto, unfolding(crate::specs::Coding::empty_place))]
    pub fn empty_place(&self) -> bool
        ensures { result ≡ empty_place self.now }
    {
        !self.held() && self.precedence == 0 && self.direction == 0
    }

    #[tactic(auto, unfolding(crate::specs::Coding::uplink))]
    pub fn uplink(&self) -> bool
        ensures { result ≡ uplink self.now }
    {
        self.direction == 0 || self.direction == 2 || self.direction == 3
    }
}

// A filter is built up one component at a time, each addition handing the filter back.
ghost use Rattle.std.specs.Prelude.{◌≡◌};
ghost use Rattle.filter.specs.Component.{family, excludes, types_of};
ghost use Rattle.filter.specs.Build.{Component, excluded, bare, added};

use crate::component::{
    Address, CLASS, Class, Filter, INDEX, IPV4_REMOTE, IPV6_REMOTE, LABEL, LARGEST_LABEL,
    LOCAL_PORT, LOCAL_RANGE, PROTOCOL, Port, REMOTE_PORT, REMOTE_RANGE, RemoteAddress,
};

fn family_of(t: u8) -> u8
    ensures { result ≡ family t }
{
    match t {
        IPV6_REMOTE => IPV4_REMOTE,
        LOCAL_RANGE => LOCAL_PORT,
        REMOTE_RANGE => REMOTE_PORT,
        _ => t,
    }
}

fn exclude(t: u8, u: u8) -> bool
    ensures { result ≡ excludes t u }
{
    u != 0 && family_of(t) == family_of(u)
}

impl Filter {
    // Without a component; with precedence and direction 0 it is an empty place.
    pub fn bare(precedence: u8, direction: u8) -> Filter
        ensures { result ≡ bare precedence direction }
    {
        Filter {
            precedence,
            direction,
            address: RemoteAddress::Absent,
            protocol: None,
            local: Port::Absent,
            remote: Port::Absent,
            index: None,
            class: None,
            label: None,
        }
    }

    // In the order of the table; 0, which is no type, where a component is absent.
    fn types(&self) -> [u8; 7]
        ensures { result ≡ types_of self.now }
    {
        [
            self.address.type_octet(),
            self.protocol.map_or(0, |_| PROTOCOL),
            self.local.type_octet(LOCAL_PORT, LOCAL_RANGE),
            self.remote.type_octet(REMOTE_PORT, REMOTE_RANGE),
            self.index.map_or(0, |_| INDEX),
            self.class.map_or(0, |_| CLASS),
            self.label.map_or(0, |_| LABEL),
        ]
    }

    // Whether a component of type t cannot be added: its type is held already, or excluded by one held.
    #[tactic(auto, unfolding(crate::specs::Build::excluded))]
    pub fn excludes_type(&self, t: u8) -> bool
        ensures { result ≡ excluded self.now t }
    {
        self.types().iter().any(|held| exclude(t, *held))
    }

    #[tactic(auto, unfolding(crate::specs::Build::added))]
    pub fn with_ipv4_remote(self, address: u32, mask: u32) -> Filter
        ensures { result ≡ added self (Component.ipv4_remote address mask) }
    {
        if self.excludes_type(IPV4_REMOTE) {
            return self;
        }
        Filter {
            address: RemoteAddress::V4 { address, mask },
            ..self
        }
    }

    #[tactic(auto, unfolding(crate::specs::Build::added))]
    pub fn with_ipv6_remote(self, address: Address, mask: Address) -> Filter
        ensures { result ≡ added self (Component.ipv6_remote address mask) }
    {
        if self.excludes_type(IPV6_REMOTE) {
            return self;
        }
        Filter {
            address: RemoteAddress::V6 { address, mask },
            ..self
        }
    }

    #[tactic(auto, unfolding(crate::specs::Build::added))]
    pub fn with_protocol(self, protocol: u8) -> Filter
        ensures { result ≡ added self (Component.protocol protocol) }
    {
        if self.excludes_type(PROTOCOL) {
            return self;
        }
        Filter {
            protocol: Some(protocol),
            ..self
        }
    }

    #[tactic(auto, unfolding(crate::specs::Build::added))]
    pub fn with_local_port(self, port: u16) -> Filter
        ensures { result ≡ added self (Component.local_port port) }
    {
        if self.excludes_type(LOCAL_PORT) {
            return self;
        }
        Filter {
            local: Port::Is(port),
            ..self
        }
    }

    #[tactic(auto, unfolding(crate::specs::Build::added))]
    pub fn with_local_range(self, low: u16, high: u16) -> Filter
        ensures { result ≡ added self (Component.local_range low high) }
    {
        if self.excludes_type(LOCAL_RANGE) {
            return self;
        }
        Filter {
            local: Port::Range { low, high },
            ..self
        }
    }

    #[tactic(auto, unfolding(crate::specs::Build::added))]
    pub fn with_remote_port(self, port: u16) -> Filter
        ensures { result ≡ added self (Component.remote_port port) }
    {
        if self.excludes_type(REMOTE_PORT) {
            return self;
        }
        Filter {
            remote: Port::Is(port),
            ..self
        }
    }

    #[tactic(auto, unfolding(crate::specs::Build::added))]
    pub fn with_remote_range(self, low: u16, high: u16) -> Filter
        ensures { result ≡ added self (Component.remote_range low high) }
    {
        if self.excludes_type(REMOTE_RANGE) {
            return self;
        }
        Filter {
            remote: Port::Range { low, high },
            ..self
        }
    }

    #[tactic(auto, unfolding(crate::specs::Build::added))]
    pub fn with_index(self, index: u32) -> Filter
        ensures { result ≡ added self (Component.index index) }
    {
        if self.excludes_type(INDEX) {
            return self;
        }
        Filter {
            index: Some(index),
            ..self
        }
    }

    #[tactic(auto, unfolding(crate::specs::Build::added))]
    pub fn with_class(self, class: u8, mask: u8) -> Filter
        ensures { result ≡ added self (Component.class class mask) }
    {
        if self.excludes_type(CLASS) {
            return self;
        }
        Filter {
            class: Some(Class { class, mask }),
            ..self
        }
    }

    #[tactic(auto, unfolding(crate::specs::Build::added))]
    pub fn with_label(self, label: u32) -> Filter
        ensures { result ≡ added self (Component.label label) }
    {
        if LARGEST_LABEL < label || self.excludes_type(LABEL) {
            return self;
        }
        Filter {
            label: Some(label),
            ..self
        }
    }
}

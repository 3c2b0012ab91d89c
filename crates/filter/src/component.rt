// The components of a filter, each absent or there, and the types that name them, an octet each.
ghost use Rattle.std.specs.Prelude.{◌≡◌};
ghost use Rattle.filter.specs.Component.{type_of_address, type_of_port};

pub const PLACES: usize = 16;

pub const PRECEDENCES: usize = 256;

pub const LARGEST_LABEL: u32 = 1048575;

pub const IPV4_REMOTE: u8 = 0x10;

pub const IPV6_REMOTE: u8 = 0x20;

pub const PROTOCOL: u8 = 0x30;

pub const LOCAL_PORT: u8 = 0x40;

pub const LOCAL_RANGE: u8 = 0x41;

pub const REMOTE_PORT: u8 = 0x50;

pub const REMOTE_RANGE: u8 = 0x51;

pub const INDEX: u8 = 0x60;

pub const CLASS: u8 = 0x70;

pub const LABEL: u8 = 0x80;

// Sixteen octets, the first eight in `high`.
#[derive(Clone, Copy, PartialEq, Eq)]
pub struct Address {
    pub high: u64,
    pub low: u64,
}

// Not an Option: of the two that may be there each excludes the other.
#[derive(Clone, Copy, PartialEq, Eq)]
pub enum RemoteAddress {
    Absent,
    V4 { address: u32, mask: u32 },
    V6 { address: Address, mask: Address },
}

// Likewise.
#[derive(Clone, Copy, PartialEq, Eq)]
pub enum Port {
    Absent,
    Is(u16),
    Range { low: u16, high: u16 },
}

#[derive(Clone, Copy, PartialEq, Eq)]
pub struct Class {
    pub class: u8,
    pub mask: u8,
}

// `address` is the remote address, `local` and `remote` are the ports.
#[derive(Clone, Copy, PartialEq, Eq)]
pub struct Filter {
    pub precedence: u8,
    pub direction: u8,
    pub address: RemoteAddress,
    pub protocol: Option<u8>,
    pub local: Port,
    pub remote: Port,
    pub index: Option<u32>,
    pub class: Option<Class>,
    pub label: Option<u32>,
}

impl RemoteAddress {
    // 0, which is no type, where it is absent.
    pub(crate) fn type_octet(&self) -> u8
        ensures { result ≡ type_of_address self.now }
    {
        match self {
            RemoteAddress::Absent => 0,
            RemoteAddress::V4 { .. } => IPV4_REMOTE,
            RemoteAddress::V6 { .. } => IPV6_REMOTE,
        }
    }
}

impl Port {
    // The type of one port is `one`, that of a range `range`.
    pub(crate) fn type_octet(&self, one: u8, range: u8) -> u8
        ensures { result ≡ type_of_port one range self.now }
    {
        match self {
            Port::Absent => 0,
            Port::Is(_) => one,
            Port::Range { .. } => range,
        }
    }
}

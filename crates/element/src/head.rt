// Octet 1: operation in bits 8 to 6, E in bit 5, count in bits 4 to 1.
ghost use Rattle.std.specs.Prelude.{◌≡◌};
ghost use Rattle.element.specs.Head.{operation_in, extension_in, count_in, operation_of, head_fine};

// A value has at most so many octets.
pub const LONGEST: usize = 255;

pub const CREATE: u8 = 1;

pub const DELETE_TFT: u8 = 2;

pub const ADD: u8 = 3;

pub const REPLACE: u8 = 4;

pub const DELETE_FILTERS: u8 = 5;

pub const NO_OPERATION: u8 = 6;

pub(crate) fn operation_in(octet: u8) -> u8
    ensures { result ≡ operation_in octet }
{
    octet / 32
}

pub(crate) fn extension_in(octet: u8) -> u8
    ensures { result ≡ extension_in octet }
{
    octet / 16 % 2
}

pub(crate) fn count_in(octet: u8) -> u8
    ensures { result ≡ count_in octet }
{
    octet % 16
}

// The operation of a value that has octets; 0 of one that has none.
pub fn operation_of(value: &[u8]) -> u8
    ensures { result ≡ operation_of value.now }
{
    match value {
        [first, ..] => operation_in(*first),
        [] => 0,
    }
}

// What step 4 asks: 1 to 255 octets, and an operation that is one.
#[tactic(auto, unfolding(crate::specs::Head::head_fine))]
pub fn head_fine(value: &[u8]) -> bool
    ensures { result ≡ head_fine value.now }
{
    let operation = operation_of(value);
    (1 <= value.len())
        & (value.len() <= LONGEST)
        & (CREATE <= operation)
        & (operation <= NO_OPERATION)
}

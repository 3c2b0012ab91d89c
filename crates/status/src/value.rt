// Which bit of the value belongs to an identity.
ghost use Rattle.std.specs.Prelude.{◌≡◌};
ghost use Rattle.status.specs.Value.{octet_of, bit_of, shown_active, showing};

pub const STATUS_OCTETS: usize = 2;

fn octet_of(identity: u8) -> usize
    ensures { result ≡ octet_of identity }
{
    usize::from(identity / 8)
}

fn bit_of(identity: u8) -> u8
    ensures { result ≡ bit_of identity }
{
    1 << (identity % 8)
}

// Of an identity beyond the value's octets: false.
#[tactic(auto, unfolding(crate::specs::Value::shown_active))]
pub fn shown_active(value: &[u8], identity: u8) -> bool
    ensures { result ≡ shown_active value.now identity }
{
    let octet = value.get(octet_of(identity)).copied().unwrap_or(0);
    octet & bit_of(identity) != 0
}

// An identity beyond the value's octets is not shown.
#[tactic(auto, using(crate::proofs::Values::unshown_past), unfolding(crate::specs::Value::showing))]
pub(crate) fn show(value: &mut [u8], identity: u8)
    ensures { value.new ≡ showing value.old identity }
{
    let at = octet_of(identity);
    if at < value.len() {
        value[at] |= bit_of(identity);
    }
}

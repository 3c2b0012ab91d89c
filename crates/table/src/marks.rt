// The marks of the walk over all filters: a number for each precedence, and in it a bit for each default.
ghost use Rattle.std.specs.Prelude.{◌≡◌, ◌<◌, length};
ghost use Rattle.table.specs.Inner.Walk.{bit_of, has_bit, with_bit};

use crate::bearer::{index_of, is_identity};

// The bit of a connection; none where no default can have that identity.
#[tactic(auto, using(crate::proofs::Walks::in_eleven), unfolding(crate::specs::Inner::Walk::bit_of))]
pub(crate) fn bit_of(connection: u8) -> u16
    ensures { result ≡ bit_of connection }
{
    if is_identity(connection) {
        1 << index_of(connection)
    } else {
        0
    }
}

// Whether the precedence has the bit already; it has it from now on.
#[tactic(auto, unfolding(crate::specs::Inner::Walk::has_bit, crate::specs::Inner::Walk::with_bit))]
pub(crate) fn marked_before(seen: &mut [u16], precedence: usize, bit: u16) -> bool
    requires { precedence < length seen.old }
    ensures { (result ≡ has_bit bit seen.old precedence) × (seen.new ≡ with_bit bit seen.old precedence) }
{
    let before = seen[precedence];
    seen[precedence] = before | bit;
    before & bit != 0
}

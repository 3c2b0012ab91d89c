// Octets laid into others.
ghost use Rattle.std.specs.Prelude.{◌+◌, ◌≤◌, length};
ghost use Rattle.element.specs.Inner.Walk.{Puts};

// The octets into `out` from `at`; the place after them.
#[tactic(auto, using(crate::proofs::Writing::part_stores))]
pub(crate) fn put(out: &mut [u8], at: usize, octets: &[u8]) -> usize
    requires { at + length octets.now ≤ length out.old }
    ensures { Puts at octets.now out.old out.new result }
{
    let end = at + octets.len();
    out[at..end].copy_from_slice(octets);
    end
}

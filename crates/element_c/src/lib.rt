// The functions of `element` that the stack's C side calls, exported under their names: a static library, which no other crate cites.
#![tactic(auto)]

ghost use Rattle.std.specs.Prelude.{◌≡◌};
ghost use Rattle.element.specs.Numbers.{number_of, placed_number};
ghost use Rattle.element.specs.Read.{read_element};

use element::read;

// How one element reads, for the stack's C side: 0, or the reader's cause.
#[unsafe(no_mangle)]
pub extern "C" fn trospel_element_cause(value: &[u8]) -> u8
    ensures { result ≡ number_of (read_element value.now).answer }
{
    read::trospel_element_cause(value)
}

// .. and where it broke: 256 times the cause, and the place; 0 where the element reads.
#[unsafe(no_mangle)]
pub extern "C" fn trospel_element_refusal(value: &[u8]) -> u16
    ensures { result ≡ placed_number (read_element value.now).answer }
{
    read::trospel_element_refusal(value)
}

// The reader.
ghost use Rattle.std.specs.Prelude.{◌≡◌, ◌≤◌, ◌<◌, ◌+◌, ◌^◌, length, drop, get_or};
ghost use Rattle.messages.specs.Layout.{optional};
ghost use Rattle.messages.specs.Read.{is_barred, tail_of, with_element, elements, start_by, template_start, read_of};
ghost use Rattle.messages.specs.Inner.Walk.{step_at};

use crate::layout::{DISCRIMINATOR, Fault, Kind, Mandatory, Message, Part, kind_of};
use crate::listed::{Form, form_of};

// Octets 1 to 3: bearer and discriminator, transaction, type.
const HEAD_OCTETS: usize = 3;

// Where the next optional element begins, and the TFT before it.
#[derive(Clone, Copy)]
pub struct Reached {
    pub at: usize,
    pub tft: Option<Part>,
}

// 0 past the end.
fn octet_at(octets: &[u8], at: usize) -> u8
    ensures { result ≡ get_or octets.now at 0 }
{
    octets.get(at).copied().unwrap_or(0)
}

// "a second TFT"
fn is_barred(form: Form, tft: Option<Part>) -> bool
    ensures { result ≡ is_barred form tft }
{
    match form {
        Form::Template => tft.is_some(),
        Form::Half | Form::Two | Form::Tlv | Form::TlvE => false,
    }
}

// How many octets of an element follow its identifier, by the octets after it.
fn tail_of(form: Form, octets: &[u8]) -> usize
    ensures { (result ≡ tail_of form octets.now) × (result ≤ 65537) }
{
    match form {
        Form::Half => 0,
        Form::Two => 1,
        Form::Tlv | Form::Template => 1 + usize::from(octet_at(octets, 0)),
        Form::TlvE => {
            2 + (usize::from(octet_at(octets, 0)) * 256 + usize::from(octet_at(octets, 1)))
        }
    }
}

// The value of a TFT stands after its identifier and its length.
fn with_element(form: Form, at: usize, octets: &[u8], tft: Option<Part>) -> Option<Part>
    requires { at + 2 < 2 ^ 64 }
    ensures { result ≡ with_element form at octets.now tft }
{
    match form {
        Form::Template => Some(Part {
            from: at + 2,
            octets: usize::from(octet_at(octets, 0)),
        }),
        Form::Half | Form::Two | Form::Tlv | Form::TlvE => tft,
    }
}

#[tactic(auto, unfolding(crate::specs::Inner::Walk::step_at))]
fn one_element(kind: Kind, message: &[u8], reached: Reached) -> Result<Reached, Fault>
    requires { reached.at < length message.now }
    ensures { result ≡ step_at kind message.now reached.at reached.tft }
{
    let Reached { at, tft } = reached;
    let form = form_of(kind, message[at]).ok_or(Fault::Framing)?;
    if is_barred(form, tft) {
        return Err(Fault::Framing);
    }
    let rest = &message[at + 1..];
    let tail = tail_of(form, rest);
    if rest.len() < tail {
        return Err(Fault::Framing);
    }
    Ok(Reached {
        at: at + 1 + tail,
        tft: with_element(form, at, rest, tft),
    })
}

#[tactic(auto, using(crate::proofs::Turns::element_next, crate::proofs::Turns::elements_end, crate::proofs::Turns::go_on, crate::proofs::Turns::step_inside))]
fn read_elements(kind: Kind, message: &[u8], start: Reached) -> Result<Option<Part>, Fault>
    requires { start.at ≤ length message.now }
    ensures { result ≡ elements (optional kind) 0 start.at start.tft (drop start.at message.now) }
{
    let mut reached = start;
    // By offset: where a TFT begins in the message is told by it.
    while reached.at < message.len() {
        reached = one_element(kind, message, reached)?;
    }
    Ok(reached.tft)
}

// From a TFT's value and its length.
fn template_start(message: &[u8], from: usize, octets: usize) -> Result<Reached, Fault>
    requires { from + octets < 2 ^ 64 }
    ensures { result ≡ template_start from octets message.now }
{
    if message.len() < from + octets {
        return Err(Fault::Framing);
    }
    Ok(Reached {
        at: from + octets,
        tft: Some(Part { from, octets }),
    })
}

#[tactic(auto, unfolding(crate::specs::Read::activation_start))]
fn start_of(mandatory: Mandatory, message: &[u8]) -> Result<Reached, Fault>
    ensures { result ≡ start_by mandatory message.now }
{
    match mandatory {
        Mandatory::Nothing => Ok(Reached {
            at: HEAD_OCTETS,
            tft: None,
        }),
        Mandatory::Cause => {
            if message.len() <= HEAD_OCTETS {
                return Err(Fault::Framing);
            }
            Ok(Reached {
                at: HEAD_OCTETS + 1,
                tft: None,
            })
        }
        Mandatory::Activation => {
            let qos = usize::from(octet_at(message, 4));
            template_start(message, 6 + qos, usize::from(octet_at(message, 5 + qos)))
        }
    }
}

#[tactic(auto, using(crate::proofs::Inside::read_faulty, crate::proofs::Turns::read_foreign, crate::proofs::Turns::read_short, crate::proofs::Inside::read_unnamed, crate::proofs::Inside::read_unstarted, crate::proofs::Inside::read_whole, crate::proofs::Inside::start_inside))]
pub fn read_message(message: &[u8]) -> Result<Message, Fault>
    ensures { result ≡ read_of message.now }
{
    let [head, transaction, octet, ..] = message else {
        return Err(Fault::Framing);
    };
    if head % 16 != DISCRIMINATOR {
        return Err(Fault::Unknown);
    }
    let kind = kind_of(*octet, octet_at(message, 3)).ok_or(Fault::Unknown)?;
    let start = start_of(kind.row().mandatory, message)?;
    let tft = read_elements(kind, message, start)?;
    Ok(Message {
        kind,
        bearer: head / 16,
        transaction: *transaction,
        tft,
    })
}

// The optional elements that each message lists, and how each is framed.
ghost use Rattle.std.specs.Prelude.{◌≡◌};
ghost use Rattle.messages.specs.Layout.{form_in, optional};

use crate::layout::{Kind, TFT_IDENTIFIER};
use crate::listed::Form::{Half, Template, Tlv, TlvE, Two};

// Half: identifier and value in one octet. Two: identifier, one octet. Tlv: identifier, length, value. TlvE: the same with two length
// octets. Template: as Tlv, and it is the TFT.
#[derive(Clone, Copy)]
pub enum Form {
    Half,
    Two,
    Tlv,
    TlvE,
    Template,
}

// How the element that begins with this octet is framed, where a message of this kind lists it. An arm for each octet: the match is then one jump, where
// octets that `|` joins are tested apart from the others.
#[tactic(auto, unfolding(crate::specs::Layout::form_in))]
pub(crate) fn form_of(kind: Kind, octet: u8) -> Option<Form>
    ensures { result ≡ form_in (optional kind) octet }
{
    match kind {
        Kind::DedicatedRequest(_) => match octet {
            0x5D => Some(Tlv),
            0x30 => Some(Tlv),
            0x34 => Some(Tlv),
            0x27 => Some(Tlv),
            0x33 => Some(Tlv),
            0x32 => Some(Two),
            0x7B => Some(TlvE),
            _ => match octet / 16 {
                0x8 | 0xC => Some(Half),
                _ => None,
            },
        },
        Kind::ModifyRequest => match octet {
            TFT_IDENTIFIER => Some(Template),
            0x5B => Some(Tlv),
            0x30 => Some(Tlv),
            0x34 => Some(Tlv),
            0x5E => Some(Tlv),
            0x27 => Some(Tlv),
            0x33 => Some(Tlv),
            0x66 => Some(Tlv),
            0x32 => Some(Two),
            0x7B => Some(TlvE),
            _ => match octet / 16 {
                0x8 | 0xC => Some(Half),
                _ => None,
            },
        },
        Kind::DeactivateRequest(_) => match octet {
            0x27 => Some(Tlv),
            0x37 => Some(Tlv),
            0x33 => Some(Tlv),
            0x7B => Some(TlvE),
            _ => match octet / 16 {
                0xC => Some(Half),
                _ => None,
            },
        },
        Kind::DeactivateAccept => match octet {
            0x27 => Some(Tlv),
            0x7B => Some(TlvE),
            _ => None,
        },
        Kind::ModificationReject(_) => match octet {
            0x27 => Some(Tlv),
            0x37 => Some(Tlv),
            0x6B => Some(Tlv),
            0x33 => Some(Tlv),
            0x7B => Some(TlvE),
            _ => None,
        },
        Kind::DedicatedAccept
        | Kind::DedicatedReject(_)
        | Kind::ModifyAccept
        | Kind::ModifyReject(_) => match octet {
            0x27 => Some(Tlv),
            0x33 => Some(Tlv),
            0x7B => Some(TlvE),
            _ => None,
        },
    }
}

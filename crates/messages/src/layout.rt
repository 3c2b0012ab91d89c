// The messages, and the octets that say which one it is.
ghost use Rattle.std.specs.Prelude.{◌≡◌};
ghost use Rattle.messages.specs.Layout.{row_of, carried, kind_of};
ghost use Rattle.messages.specs.Read.{fault_number, parsed_number};

pub(crate) const DISCRIMINATOR: u8 = 2;

const DEDICATED_REQUEST: u8 = 0xC5;

pub(crate) const DEDICATED_ACCEPT: u8 = 0xC6;

pub(crate) const DEDICATED_REJECT: u8 = 0xC7;

const MODIFY_REQUEST: u8 = 0xC9;

pub(crate) const MODIFY_ACCEPT: u8 = 0xCA;

pub(crate) const MODIFY_REJECT: u8 = 0xCB;

const DEACTIVATE_REQUEST: u8 = 0xCD;

pub(crate) const DEACTIVATE_ACCEPT: u8 = 0xCE;

const MODIFICATION_REJECT: u8 = 0xD7;

// The identifier of a modify request's TFT.
pub(crate) const TFT_IDENTIFIER: u8 = 0x36;

// With the linked identity, or the cause, where it has one.
#[derive(Clone, Copy, PartialEq, Eq)]
pub enum Kind {
    DedicatedRequest(u8),
    DedicatedAccept,
    DedicatedReject(u8),
    ModifyRequest,
    ModifyAccept,
    ModifyReject(u8),
    DeactivateRequest(u8),
    DeactivateAccept,
    ModificationReject(u8),
}

// Where the TFT's octets stand in the message, and how many they are.
#[derive(Clone, Copy, PartialEq, Eq)]
pub struct Part {
    pub from: usize,
    pub octets: usize,
}

#[derive(Clone, Copy, PartialEq, Eq)]
pub struct Message {
    pub kind: Kind,
    pub bearer: u8,
    pub transaction: u8,
    pub tft: Option<Part>,
}

#[derive(Clone, Copy, PartialEq, Eq)]
pub enum Fault {
    Unknown,
    Framing,
}

// What stands between the type and the optional elements: one octet of cause; or one octet with the linked identity, QoS and TFT.
#[derive(Clone, Copy)]
pub enum Mandatory {
    Nothing,
    Cause,
    Activation,
}

// Whether there is a TFT.
#[derive(Clone, Copy)]
pub enum Carries {
    Always,
    Maybe,
    Never,
}

#[derive(Clone, Copy)]
pub struct Row {
    pub octet: u8,
    pub mandatory: Mandatory,
    pub tft: Carries,
}

impl Fault {
    pub fn number(self) -> u8
        ensures { result ≡ fault_number self }
    {
        match self {
            Fault::Unknown => 15,
            Fault::Framing => 16,
        }
    }
}

// The number of a refusal; 0 where the message was read.
pub fn parsed_number(parsed: Result<Message, Fault>) -> u8
    ensures { result ≡ parsed_number parsed }
{
    match parsed {
        Ok(_) => 0,
        Err(fault) => fault.number(),
    }
}

// `first` is the octet after the type: it holds the linked identity, or is the cause.
#[tactic(auto, unfolding(crate::specs::Layout::kind_of))]
pub(crate) fn kind_of(octet: u8, first: u8) -> Option<Kind>
    ensures { result ≡ kind_of octet first }
{
    match octet {
        DEDICATED_REQUEST => Some(Kind::DedicatedRequest(first % 16)),
        DEDICATED_ACCEPT => Some(Kind::DedicatedAccept),
        DEDICATED_REJECT => Some(Kind::DedicatedReject(first)),
        MODIFY_REQUEST => Some(Kind::ModifyRequest),
        MODIFY_ACCEPT => Some(Kind::ModifyAccept),
        MODIFY_REJECT => Some(Kind::ModifyReject(first)),
        DEACTIVATE_REQUEST => Some(Kind::DeactivateRequest(first)),
        DEACTIVATE_ACCEPT => Some(Kind::DeactivateAccept),
        MODIFICATION_REJECT => Some(Kind::ModificationReject(first)),
        _ => None,
    }
}

impl Kind {
    pub(crate) fn row(self) -> Row
        ensures { (result.octet ≡ (row_of self).type) × (result.mandatory ≡ (row_of self).mandatory) × (result.tft ≡ (row_of self).tft) }
    {
        let (octet, mandatory, tft) = match self {
            Kind::DedicatedRequest(_) => (
                DEDICATED_REQUEST,
                Mandatory::Activation,
                Carries::Always,
            ),
            Kind::DedicatedAccept => (DEDICATED_ACCEPT, Mandatory::Nothing, Carries::Never),
            Kind::DedicatedReject(_) => (DEDICATED_REJECT, Mandatory::Cause, Carries::Never),
            Kind::ModifyRequest => (MODIFY_REQUEST, Mandatory::Nothing, Carries::Maybe),
            Kind::ModifyAccept => (MODIFY_ACCEPT, Mandatory::Nothing, Carries::Never),
            Kind::ModifyReject(_) => (MODIFY_REJECT, Mandatory::Cause, Carries::Never),
            Kind::DeactivateRequest(_) => (DEACTIVATE_REQUEST, Mandatory::Cause, Carries::Never),
            Kind::DeactivateAccept => (DEACTIVATE_ACCEPT, Mandatory::Nothing, Carries::Never),
            Kind::ModificationReject(_) => (MODIFICATION_REJECT, Mandatory::Cause, Carries::Never),
        };
        Row {
            octet,
            mandatory,
            tft,
        }
    }

    // The linked identity or the cause; 0 where it has neither.
    pub(crate) fn carried(self) -> u8
        ensures { result ≡ carried self }
    {
        match self {
            Kind::DedicatedRequest(link) => link,
            Kind::DedicatedReject(cause)
            | Kind::ModifyReject(cause)
            | Kind::DeactivateRequest(cause)
            | Kind::ModificationReject(cause) => cause,
            Kind::DedicatedAccept
            | Kind::ModifyRequest
            | Kind::ModifyAccept
            | Kind::DeactivateAccept => 0,
        }
    }
}

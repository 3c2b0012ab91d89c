// Whole messages: their kinds from words and back, and what is said of them.
use messages::{Kind, Message};
use script::elements::Hex;
use script::kinds::{Carried, MessageKind};
use std::fmt;

// A function and no `From`, like `parts_of`: neither kind is a type of this crate.
pub(crate) fn message_kind(kind: MessageKind, carried: u8) -> Kind {
    match kind {
        MessageKind::DedicatedRequest => Kind::DedicatedRequest(carried),
        MessageKind::DedicatedAccept => Kind::DedicatedAccept,
        MessageKind::DedicatedReject => Kind::DedicatedReject(carried),
        MessageKind::ModifyRequest => Kind::ModifyRequest,
        MessageKind::ModifyAccept => Kind::ModifyAccept,
        MessageKind::ModifyReject => Kind::ModifyReject(carried),
        MessageKind::DeactivateRequest => Kind::DeactivateRequest(carried),
        MessageKind::DeactivateAccept => Kind::DeactivateAccept,
        MessageKind::ModificationReject => Kind::ModificationReject(carried),
    }
}

// The link or the cause behind it is 0 where there is neither.
fn parts_of(kind: Kind) -> (MessageKind, u8) {
    match kind {
        Kind::DedicatedRequest(link) => (MessageKind::DedicatedRequest, link),
        Kind::DedicatedAccept => (MessageKind::DedicatedAccept, 0),
        Kind::DedicatedReject(cause) => (MessageKind::DedicatedReject, cause),
        Kind::ModifyRequest => (MessageKind::ModifyRequest, 0),
        Kind::ModifyAccept => (MessageKind::ModifyAccept, 0),
        Kind::ModifyReject(cause) => (MessageKind::ModifyReject, cause),
        Kind::DeactivateRequest(cause) => (MessageKind::DeactivateRequest, cause),
        Kind::DeactivateAccept => (MessageKind::DeactivateAccept, 0),
        Kind::ModificationReject(cause) => (MessageKind::ModificationReject, cause),
    }
}

// What `message` was read as.
#[derive(Clone, Copy)]
pub(crate) struct MessageLine<'a> {
    pub(crate) read: &'a Message,
    pub(crate) message: &'a [u8],
}

impl fmt::Display for MessageLine<'_> {
    fn fmt<W: fmt::Write>(&self, f: &mut fmt::Formatter<W>) -> fmt::Result {
        let MessageLine { read, message } = *self;
        let (kind, carried) = parts_of(read.kind);
        let (bearer, transaction) = (read.bearer, read.transaction);
        write!(f, "{kind} bearer {bearer} transaction {transaction}")?;
        match kind.carries() {
            Carried::Nothing => {}
            Carried::Link => write!(f, " link {carried}")?,
            Carried::Cause => write!(f, " cause {carried}")?,
        }
        if let Some(part) = read.tft {
            let rest = message.get(part.from..).unwrap_or(&[]);
            write!(f, " tft {}", Hex(rest.get(..part.octets).unwrap_or(&[])))?;
        }
        Ok(())
    }
}

// Why a line is not done.
use element::portions::portions_number;
use element::write::written_number;
use element::{PortionRefusal, Unwritten};
use messages::{Fault, MessageUnwritten};
use script::error::BadLine;
use status::StatusUnwritten;
use std::io;

// The line is bad, it is refused with a number, or its reply could not be written.
#[derive(Drop)]
pub(crate) enum LineError {
    Bad,
    Refused(u8),
    Unwritten(io::Error),
}

impl From<BadLine> for LineError {
    fn from(_line: BadLine) -> LineError {
        LineError::Bad
    }
}

impl From<io::Error> for LineError {
    fn from(error: io::Error) -> LineError {
        LineError::Unwritten(error)
    }
}

impl From<calls::Refusal> for LineError {
    fn from(refusal: calls::Refusal) -> LineError {
        LineError::Refused(calls::reply::number(calls::Answer::Refused(refusal)))
    }
}

impl From<route::Refusal> for LineError {
    fn from(refusal: route::Refusal) -> LineError {
        LineError::Refused(refusal.number())
    }
}

impl From<PortionRefusal> for LineError {
    fn from(refusal: PortionRefusal) -> LineError {
        LineError::Refused(portions_number(Err(refusal)))
    }
}

impl From<Unwritten> for LineError {
    fn from(unwritten: Unwritten) -> LineError {
        LineError::Refused(written_number(Err(unwritten)))
    }
}

impl From<StatusUnwritten> for LineError {
    fn from(unwritten: StatusUnwritten) -> LineError {
        LineError::Refused(unwritten.number())
    }
}

impl From<MessageUnwritten> for LineError {
    fn from(unwritten: MessageUnwritten) -> LineError {
        LineError::Refused(unwritten.number())
    }
}

impl From<Fault> for LineError {
    fn from(fault: Fault) -> LineError {
        LineError::Refused(fault.number())
    }
}

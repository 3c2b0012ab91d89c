// The words of operations, messages, roles and switches.
// Each stands twice, to be read and to be printed, and both are held to one spec; a search through a list of the kinds would need a proof that it lacks none.
ghost use Rattle.std.specs.Prelude.{◌≡◌, ◌≢◌, IfOk, OnErr, Some};
ghost use Rattle.script.specs.Words.{operation_word, message_word, role_word, switch_word};
ghost use Rattle.script.specs.declared.kinds.OperationKind.{OperationKind};
ghost use Rattle.script.specs.declared.kinds.MessageKind.{MessageKind};
ghost use Rattle.script.specs.declared.kinds.RoleKind.{RoleKind};
ghost use Rattle.script.specs.declared.kinds.Switch.{Switch};

use crate::error::BadLine;
use element::{Answer, BareOperation, SetOperation};
use std::fmt;

#[derive(Clone, Copy)]
pub enum OperationKind {
    Create,
    Add,
    Replace,
    DeleteFilters,
    DeleteTft,
    NoOperation,
}

impl OperationKind {
    pub(crate) fn from_word(word: &[u8]) -> Result<OperationKind, BadLine>
        ensures ok { IfOk result (λ kind. word.now ≡ operation_word kind) }
        ensures err { OnErr result ((kind : OperationKind) → word.now ≢ operation_word kind) }
    {
        Ok(match word {
            b"create" => OperationKind::Create,
            b"add" => OperationKind::Add,
            b"replace" => OperationKind::Replace,
            b"delete-filters" => OperationKind::DeleteFilters,
            b"delete-tft" => OperationKind::DeleteTft,
            b"none" => OperationKind::NoOperation,
            _ => return Err(BadLine),
        })
    }

    pub fn answer(self) -> Answer {
        match self {
            OperationKind::Create => Answer::Filters(SetOperation::Create),
            OperationKind::Add => Answer::Filters(SetOperation::Add),
            OperationKind::Replace => Answer::Filters(SetOperation::Replace),
            OperationKind::DeleteFilters => Answer::Identifiers,
            OperationKind::DeleteTft => Answer::Bare(BareOperation::DeleteTft),
            OperationKind::NoOperation => Answer::Bare(BareOperation::NoOperation),
        }
    }
}

impl fmt::Display for OperationKind {
    ghost output = { λ kind. Some (operation_word kind) };

    fn fmt<W: fmt::Write>(&self, f: &mut fmt::Formatter<W>) -> fmt::Result {
        f.write_str(match self {
            OperationKind::Create => "create",
            OperationKind::Add => "add",
            OperationKind::Replace => "replace",
            OperationKind::DeleteFilters => "delete-filters",
            OperationKind::DeleteTft => "delete-tft",
            OperationKind::NoOperation => "none",
        })
    }
}

#[derive(Clone, Copy)]
pub enum MessageKind {
    DedicatedRequest,
    DedicatedAccept,
    DedicatedReject,
    ModifyRequest,
    ModifyAccept,
    ModifyReject,
    DeactivateRequest,
    DeactivateAccept,
    ModificationReject,
}

// What a message has besides bearer, transaction and TFT.
#[derive(Clone, Copy)]
pub enum Carried {
    Nothing,
    Link,
    Cause,
}

impl MessageKind {
    pub(crate) fn from_word(word: &[u8]) -> Result<MessageKind, BadLine>
        ensures ok { IfOk result (λ kind. word.now ≡ message_word kind) }
        ensures err { OnErr result ((kind : MessageKind) → word.now ≢ message_word kind) }
    {
        Ok(match word {
            b"dedicated-request" => MessageKind::DedicatedRequest,
            b"dedicated-accept" => MessageKind::DedicatedAccept,
            b"dedicated-reject" => MessageKind::DedicatedReject,
            b"modify-request" => MessageKind::ModifyRequest,
            b"modify-accept" => MessageKind::ModifyAccept,
            b"modify-reject" => MessageKind::ModifyReject,
            b"deactivate-request" => MessageKind::DeactivateRequest,
            b"deactivate-accept" => MessageKind::DeactivateAccept,
            b"modification-reject" => MessageKind::ModificationReject,
            _ => return Err(BadLine),
        })
    }

    pub fn carries(self) -> Carried {
        match self {
            MessageKind::DedicatedRequest => Carried::Link,
            MessageKind::DedicatedReject
            | MessageKind::ModifyReject
            | MessageKind::DeactivateRequest
            | MessageKind::ModificationReject => Carried::Cause,
            MessageKind::DedicatedAccept
            | MessageKind::ModifyRequest
            | MessageKind::ModifyAccept
            | MessageKind::DeactivateAccept => Carried::Nothing,
        }
    }
}

impl fmt::Display for MessageKind {
    ghost output = { λ kind. Some (message_word kind) };

    fn fmt<W: fmt::Write>(&self, f: &mut fmt::Formatter<W>) -> fmt::Result {
        f.write_str(match self {
            MessageKind::DedicatedRequest => "dedicated-request",
            MessageKind::DedicatedAccept => "dedicated-accept",
            MessageKind::DedicatedReject => "dedicated-reject",
            MessageKind::ModifyRequest => "modify-request",
            MessageKind::ModifyAccept => "modify-accept",
            MessageKind::ModifyReject => "modify-reject",
            MessageKind::DeactivateRequest => "deactivate-request",
            MessageKind::DeactivateAccept => "deactivate-accept",
            MessageKind::ModificationReject => "modification-reject",
        })
    }
}

#[derive(Clone, Copy)]
pub enum RoleKind {
    Idle,
    Default,
    Dedicated,
}

impl RoleKind {
    pub(crate) fn from_word(word: &[u8]) -> Result<RoleKind, BadLine>
        ensures ok { IfOk result (λ kind. word.now ≡ role_word kind) }
        ensures err { OnErr result ((kind : RoleKind) → word.now ≢ role_word kind) }
    {
        Ok(match word {
            b"idle" => RoleKind::Idle,
            b"default" => RoleKind::Default,
            b"dedicated" => RoleKind::Dedicated,
            _ => return Err(BadLine),
        })
    }
}

impl fmt::Display for RoleKind {
    ghost output = { λ kind. Some (role_word kind) };

    fn fmt<W: fmt::Write>(&self, f: &mut fmt::Formatter<W>) -> fmt::Result {
        f.write_str(match self {
            RoleKind::Idle => "idle",
            RoleKind::Default => "default",
            RoleKind::Dedicated => "dedicated",
        })
    }
}

#[derive(Clone, Copy)]
pub enum Switch {
    On,
    Off,
}

impl Switch {
    pub(crate) fn from_word(word: &[u8]) -> Result<Switch, BadLine>
        ensures ok { IfOk result (λ switch. word.now ≡ switch_word switch) }
        ensures err { OnErr result ((switch : Switch) → word.now ≢ switch_word switch) }
    {
        match word {
            b"on" => Ok(Switch::On),
            b"off" => Ok(Switch::Off),
            _ => Err(BadLine),
        }
    }
}

impl fmt::Display for Switch {
    ghost output = { λ switch. Some (switch_word switch) };

    fn fmt<W: fmt::Write>(&self, f: &mut fmt::Formatter<W>) -> fmt::Result {
        f.write_str(match self {
            Switch::On => "on",
            Switch::Off => "off",
        })
    }
}

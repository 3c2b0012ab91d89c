// A message handled on a table.
ghost use Rattle.std.specs.Prelude.{◌≡◌, [], ◌≤◌, Ok, option_copied};
ghost use Rattle.laws.specs.Lists.{is_in};
ghost use Rattle.messages.specs.Read.{octets_at, said_by};
ghost use Rattle.messages.specs.Write.{largest_identity, octets_of};
ghost use Rattle.messages.specs.Handle.{reply_types, request_of, refusal_of, refused_of, call_by, accepting, rejecting, sending_of};
ghost use Rattle.messages.specs.Handle.{reply_fields, sent_by, message_of, handled, handled_by, handle_of};
ghost use Rattle.messages.specs.Inner.Walk.{Inside};

use crate::layout::{
    DEACTIVATE_ACCEPT, DEDICATED_ACCEPT, DEDICATED_REJECT, Fault, Kind, MODIFY_ACCEPT,
    MODIFY_REJECT, Message, Part,
};
use crate::read::read_message;
use crate::write::{Fields, front_of};
use calls::activate::activate_dedicated_on;
use calls::deactivate::{deactivate_on, reject_on};
use calls::modify::modify_on;
use calls::reply::number;
use calls::{Answer, Outcome, Refusal, Reply};
use table::Table;

const ANSWER_OCTETS: usize = 4;

// The value of an element with the operation "no operation".
const NO_OPERATION: [u8; 1] = [0xC0];

// The octets of what is sent, zero beyond the count; none where nothing is. It is handed out in fixed memory: no layer has a heap.
#[derive(Clone, Copy)]
pub struct AnswerMessage {
    pub count: u8,
    pub octets: [u8; ANSWER_OCTETS],
}

#[derive(Clone, Copy)]
pub struct Handled {
    pub outcome: Outcome,
    pub answer: AnswerMessage,
}

// Of a message that is handled on a lent table.
#[derive(Clone, Copy)]
pub struct Answered {
    pub reply: Reply,
    pub answer: AnswerMessage,
}

#[tactic(auto, unfolding(laws::specs::Lists::is_in))]
fn is_reply(octet: u8) -> bool
    ensures { result ≡ is_in octet reply_types }
{
    matches!(
        octet,
        DEDICATED_ACCEPT | DEDICATED_REJECT | MODIFY_ACCEPT | MODIFY_REJECT | DEACTIVATE_ACCEPT
    )
}

#[tactic(auto, using(crate::proofs::Turns::request_read, crate::proofs::Turns::request_reply, crate::proofs::Turns::request_short))]
fn read_request(message: &[u8]) -> Result<Message, Fault>
    ensures { result ≡ request_of message.now }
{
    let [_, _, octet, ..] = message else {
        return Err(Fault::Framing);
    };
    if is_reply(*octet) {
        return Err(Fault::Unknown);
    }
    read_message(message)
}

impl From<Fault> for Refusal {
    ghost from_gives = { λ fault refusal. refusal ≡ refusal_of fault };

    fn from(fault: Fault) -> Refusal {
        match fault {
            Fault::Unknown => Refusal::UnknownMessage,
            Fault::Framing => Refusal::MessageFraming,
        }
    }
}

#[tactic(auto, unfolding(crate::specs::Handle::refused_of))]
fn refuse(table: &mut Table, fault: Fault) -> Reply
    ensures { record { table = table.new; reply = result } ≡ refused_of fault table.old }
{
    if !table.well_formed() {
        return Reply::refuse(Refusal::NotWellFormed);
    }
    Reply::refuse(Refusal::from(fault))
}

// The TFT's value, where there is a TFT.
fn value_in(message: &[u8], tft: Option<Part>) -> Option<&[u8]>
    requires { Inside tft message.now }
    ensures { option_copied result ≡ octets_at message.now tft }
{
    let part = tft?;
    Some(&message[part.from..part.from + part.octets])
}

// A modify request without a TFT is one without operation: it changes nothing but a closed transaction.
#[tactic(auto, using(crate::proofs::Accepting::no_operation_lem))]
fn call(table: &mut Table, request: Message, tft: Option<&[u8]>) -> Reply
    ensures { record { table = table.new; reply = result } ≡ call_by request.kind (option_copied tft.entry) table.old request.bearer request.transaction }
{
    let Message {
        kind,
        bearer,
        transaction,
        ..
    } = request;
    match kind {
        Kind::DedicatedRequest(link) => {
            activate_dedicated_on(table, bearer, link, transaction, tft.unwrap_or(&[]))
        }
        Kind::ModifyRequest => modify_on(table, bearer, transaction, tft.unwrap_or(&NO_OPERATION)),
        Kind::DeactivateRequest(_) => deactivate_on(table, bearer, transaction),
        Kind::ModificationReject(cause) => reject_on(table, transaction, cause),
        Kind::DedicatedAccept
        | Kind::DedicatedReject(_)
        | Kind::ModifyAccept
        | Kind::ModifyReject(_)
        | Kind::DeactivateAccept => refuse(table, Fault::Unknown),
    }
}

fn accepting(kind: Kind) -> Option<Kind>
    ensures { result ≡ accepting kind }
{
    match kind {
        Kind::DedicatedRequest(_) => Some(Kind::DedicatedAccept),
        Kind::ModifyRequest => Some(Kind::ModifyAccept),
        Kind::DeactivateRequest(_) => Some(Kind::DeactivateAccept),
        Kind::DedicatedAccept
        | Kind::DedicatedReject(_)
        | Kind::ModifyAccept
        | Kind::ModifyReject(_)
        | Kind::DeactivateAccept
        | Kind::ModificationReject(_) => None,
    }
}

fn rejecting(kind: Kind, cause: u8) -> Option<Kind>
    ensures { result ≡ rejecting kind cause }
{
    match kind {
        Kind::DedicatedRequest(_) => Some(Kind::DedicatedReject(cause)),
        Kind::ModifyRequest => Some(Kind::ModifyReject(cause)),
        Kind::DedicatedAccept
        | Kind::DedicatedReject(_)
        | Kind::ModifyAccept
        | Kind::ModifyReject(_)
        | Kind::DeactivateRequest(_)
        | Kind::DeactivateAccept
        | Kind::ModificationReject(_) => None,
    }
}

fn sending_of(kind: Kind, answer: Answer) -> Option<Kind>
    ensures { result ≡ sending_of kind answer }
{
    match answer {
        Answer::Accept(_) => accepting(kind),
        Answer::Reject(..) => rejecting(kind, number(answer)),
        Answer::Release(_)
        | Answer::Reattach
        | Answer::Started(_)
        | Answer::Closed(_)
        | Answer::Synchronised
        | Answer::Refused(_) => None,
    }
}

#[tactic(auto, unfolding(laws::specs::Index::pad))]
fn nothing_sent() -> AnswerMessage
    ensures { result ≡ message_of [] }
{
    AnswerMessage {
        count: 0,
        octets: [0; ANSWER_OCTETS],
    }
}

// A reply has no TFT, and so at most four octets.
#[tactic(auto, using(crate::proofs::Turns::front_short, crate::proofs::Turns::reply_is), unfolding(crate::specs::Write::octets_of))]
fn reply_message(kind: Kind, bearer: u8) -> AnswerMessage
    requires { bearer ≤ largest_identity }
    ensures { result ≡ message_of (octets_of (reply_fields kind bearer)) }
{
    let front = front_of(Fields {
        kind,
        bearer,
        transaction: 0,
        tft: None,
    });
    let [first, second, third, fourth, ..] = front.octets;
    AnswerMessage {
        count: front.count as u8,
        octets: [first, second, third, fourth],
    }
}

fn answer_to(kind: Kind, bearer: u8, answer: Answer) -> AnswerMessage
    requires { bearer ≤ largest_identity }
    ensures { result ≡ message_of (sent_by (sending_of kind answer) bearer) }
{
    match sending_of(kind, answer) {
        Some(reply) => reply_message(reply, bearer),
        None => nothing_sent(),
    }
}

fn respond(table: &mut Table, request: Message, message: &[u8]) -> Answered
    requires { (Inside request.tft message.now) × (request.bearer ≤ largest_identity) }
    ensures { handled table.new result ≡ handled_by (said_by (Ok request) message.now) table.old }
{
    let reply = call(table, request, value_in(message, request.tft));
    let answer = answer_to(request.kind, request.bearer, reply.answer);
    Answered { reply, answer }
}

// On a table that is lent.
#[tactic(auto, using(crate::proofs::Handling::handled_read, crate::proofs::Handling::handled_refused))]
pub fn handle_on(table: &mut Table, message: &[u8]) -> Answered
    ensures { handled table.new result ≡ handle_of table.old message.now }
{
    match read_request(message) {
        Ok(request) => respond(table, request, message),
        Err(fault) => Answered {
            reply: refuse(table, fault),
            answer: nothing_sent(),
        },
    }
}

pub fn handle(table: Table, message: &[u8]) -> Handled
    ensures { result ≡ handle_of table message.now }
{
    let mut table = table;
    let Answered { reply, answer } = handle_on(&mut table, message);
    Handled {
        outcome: Outcome { table, reply },
        answer,
    }
}

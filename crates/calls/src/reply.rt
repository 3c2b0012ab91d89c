// What a call gives.
ghost use Rattle.std.specs.Prelude.{◌≡◌, ◌+◌, ◌<◌, [], set};
ghost use Rattle.table.specs.Bearers.{bearer_count};
ghost use Rattle.calls.specs.declared.reply.Answer.TheVariants.{Accept, Refused};
ghost use Rattle.calls.specs.Reply.{cause_number, refusal_number, number_of, cause_of, reject, reject_head, reject_for, follow_of, answered};

use table::Table;
use table::bearer::BEARERS;

// 41, 42, 43, 44, 45 and 47.
#[derive(Clone, Copy, PartialEq, Eq)]
pub enum Cause {
    TftSemantics,
    TftSyntax,
    BearerIdentity,
    FilterSemantics,
    FilterSyntax,
    Transaction,
}

// 1, 3, 4, 5, 6, 7, 12, 15 and 16.
#[derive(Clone, Copy, PartialEq, Eq)]
pub enum Refusal {
    NotWellFormed,
    NotOpen,
    NoIdentity,
    AlreadyOpen,
    NoBearer,
    BearerBusy,
    StatusLength,
    UnknownMessage,
    MessageFraming,
}

// Accept and Reject are sent; of the others no reply is. The place, which is not sent, is where the element's value broke, an offset from 0 in it; what is
// wrong elsewhere has none. The refusal is among the answers and no Err: a caller's answer is one of this list.
#[derive(Clone, Copy, PartialEq, Eq)]
pub enum Answer {
    Accept(u8),
    Reject(u8, Cause, Option<u8>),
    Release(u8),
    Reattach,
    Started(u8),
    Closed(u8),
    Synchronised,
    Refused(Refusal),
}

// Identities in rising order, zero beyond the count: a list that needs no heap.
#[derive(Clone, Copy)]
pub struct FollowUps {
    pub count: u8,
    pub bearers: [u8; BEARERS],
}

#[derive(Clone, Copy)]
pub struct Reply {
    pub answer: Answer,
    pub follow: FollowUps,
}

#[derive(Clone, Copy)]
pub struct Outcome {
    pub table: Table,
    pub reply: Reply,
}

impl Cause {
    fn number(self) -> u8
        ensures { result ≡ cause_number self }
    {
        match self {
            Cause::TftSemantics => 41,
            Cause::TftSyntax => 42,
            Cause::BearerIdentity => 43,
            Cause::FilterSemantics => 44,
            Cause::FilterSyntax => 45,
            Cause::Transaction => 47,
        }
    }
}

impl From<element::Cause> for Cause {
    ghost from_gives = { λ read cause. cause ≡ cause_of read };

    fn from(cause: element::Cause) -> Cause {
        match cause {
            element::Cause::Operation => Cause::TftSyntax,
            element::Cause::Semantics => Cause::FilterSemantics,
            element::Cause::Coding => Cause::FilterSyntax,
        }
    }
}

impl Refusal {
    fn number(self) -> u8
        ensures { result ≡ refusal_number self }
    {
        match self {
            Refusal::NotWellFormed => 1,
            Refusal::NotOpen => 3,
            Refusal::NoIdentity => 4,
            Refusal::AlreadyOpen => 5,
            Refusal::NoBearer => 6,
            Refusal::BearerBusy => 7,
            Refusal::StatusLength => 12,
            Refusal::UnknownMessage => 15,
            Refusal::MessageFraming => 16,
        }
    }
}

// The number of what is refused; 0 where nothing is.
pub fn number(answer: Answer) -> u8
    ensures { result ≡ number_of answer }
{
    match answer {
        Answer::Reject(_, cause, _) => cause.number(),
        Answer::Refused(refusal) => refusal.number(),
        Answer::Accept(_)
        | Answer::Release(_)
        | Answer::Reattach
        | Answer::Started(_)
        | Answer::Closed(_)
        | Answer::Synchronised => 0,
    }
}

impl FollowUps {
    #[tactic(auto, unfolding(laws::specs::Index::pad))]
    pub(crate) fn none() -> FollowUps
        ensures { result ≡ follow_of [] }
    {
        FollowUps {
            count: 0,
            bearers: [0; BEARERS],
        }
    }

    pub(crate) fn push(&mut self, bearer: u8)
        requires { self.old.count < bearer_count }
        ensures { self.new ≡ record { count = self.old.count + 1; bearers = set self.old.bearers self.old.count bearer } }
    {
        self.bearers[self.count as usize] = bearer;
        self.count += 1;
    }
}

impl Reply {
    // Nobody follows.
    pub fn alone(answer: Answer) -> Reply
        ensures { result ≡ record { answer = answer; follow = follow_of [] } }
    {
        Reply {
            answer,
            follow: FollowUps::none(),
        }
    }

    pub(crate) fn accept(bearer: u8) -> Reply
        ensures { result ≡ record { answer = Accept bearer; follow = follow_of [] } }
    {
        Reply::alone(Answer::Accept(bearer))
    }

    // What is wrong lies not in the element.
    pub(crate) fn reject(bearer: u8, cause: Cause) -> Reply
        ensures { result ≡ record { answer = reject bearer cause; follow = follow_of [] } }
    {
        Reply::alone(Answer::Reject(bearer, cause, None))
    }

    pub(crate) fn reject_head(bearer: u8) -> Reply
        ensures { result ≡ record { answer = reject_head bearer; follow = follow_of [] } }
    {
        Reply::alone(Answer::Reject(bearer, Cause::TftSyntax, Some(0)))
    }

    // The reader's refusal, in the reply.
    pub(crate) fn reject_for(bearer: u8, refusal: element::Refusal) -> Reply
        ensures { result ≡ record { answer = reject_for bearer refusal; follow = follow_of [] } }
    {
        Reply::alone(Answer::Reject(bearer, refusal.cause.into(), Some(refusal.place)))
    }

    pub fn refuse(refusal: Refusal) -> Reply
        ensures { result ≡ record { answer = Refused refusal; follow = follow_of [] } }
    {
        Reply::alone(Answer::Refused(refusal))
    }
}

// Nobody follows.
pub fn answer_with(table: Table, answer: Answer) -> Outcome
    ensures { result ≡ answered table answer }
{
    Outcome {
        table,
        reply: Reply::alone(answer),
    }
}

// What the lines do.
use crate::error::LineError;
use crate::esm::{MessageLine, message_kind};
use crate::replies::CallLine;
use crate::tables::{ListLines, TableLines, active, identities};
use calls::activate::{activate_dedicated_on, activate_default_on};
use calls::deactivate::{deactivate_on, reject_on};
use calls::modify::modify_on;
use calls::transaction::start_on;
use calls::{Refusal, Reply};
use element::head::LONGEST;
use element::portions::{finish_number, portions_number};
use element::read::read;
use element::{Answer, Element, Portions};
use filter::Filter;
use filter::component::{PLACES, PRECEDENCES};
use messages::AnswerMessage;
use messages::handle::handle_on;
use messages::read::read_message;
use messages::write::write_message;
use route::{Route, Why};
use script::command::{self, Asked, Call, Command, Feeding, Hand, Part, Question};
use script::elements::{ElementLines, Hex};
use script::error::BadLine;
use script::filters::FilterLine;
use script::kinds::{OperationKind, Switch};
use script::words::{LARGEST_ROOM, Room, Value};
use status::take::synchronise_on;
use status::value::{STATUS_OCTETS, shown_active};
use status::write::write_status;
use std::io::Write;
use table::bearer::index_of;
use table::{Bearer, Table};

// What a buffer to be written to has in each octet before.
const UNWRITTEN: u8 = 0xEE;

// The table, the operation that is being composed, from the first `compose` on, and the element that arrives split.
#[derive(Drop)]
pub(crate) struct Bench {
    table: Table,
    operation: Option<Element>,
    portions: Portions,
    echoing: bool,
}

// What the last of so many times gave.
fn last_of<T: Drop, F: FnMut() -> T + Drop>(times: usize, mut call: F) -> T
    requires { F.IsAlwaysCallable call }
{
    for _ in 1..times {
        call();
    }
    call()
}

// The reply to what was written the last of so many times, the buffer as it was before each.
fn put_written<E: Into<LineError> + Drop, F, W: Write>(
    room: Room,
    times: usize,
    mut write: F,
    out: &mut W,
) -> Result<(), LineError>
where
    F: FnMut(&mut [u8]) -> Result<usize, E> + Drop,
    requires { F.IsAlwaysCallable write }
{
    let mut space = [UNWRITTEN; LARGEST_ROOM];
    let buffer = &mut space[..room.value];
    let mut written = Ok(0);
    // `times` is at least 1
    for _ in 0..times {
        buffer.fill(UNWRITTEN);
        written = write(buffer);
    }
    match written {
        Ok(count) => Ok(writeln!(out, "wrote {count} {}", Hex(buffer))?),
        Err(error) => Err(error.into()),
    }
}

fn octets_of<'v>(value: Value<'v>, portions: &'v Portions) -> &'v [u8] {
    match value {
        Value::Octets(octets) => octets,
        Value::Fed => &portions.octets[..usize::from(portions.fed)],
    }
}

fn empty_operation(kind: OperationKind) -> Element {
    Element {
        answer: kind.answer(),
        filters: [Filter::bare(0, 0); PLACES],
        marks: [false; PLACES],
    }
}

impl Bench {
    pub(crate) fn new(echoing: bool) -> Bench {
        Bench {
            table: Table::empty_table(),
            operation: None,
            portions: Portions::empty(),
            echoing,
        }
    }

    // The octets of the line's HEX are put into `octets`.
    pub(crate) fn answer<W: Write>(
        &mut self,
        line: &[u8],
        octets: &mut [u8],
        out: &mut W,
    ) -> Result<(), LineError> {
        if self.echoing && line.len() <= command::LONGEST_LINE {
            out.write_all(line)?;
            out.write_all(b"\n")?;
        }
        let Some(Asked { command, times }) = command::parse(line, self.operation.is_some(), octets)?
        else {
            return Ok(());
        };
        match command {
            Command::Call(call) => {
                let reply = last_of(times, || self.call(&call));
                Ok(writeln!(out, "{}", CallLine(&reply))?)
            }
            Command::Synchronise(value) => self.synchronise(value, times, out),
            Command::Message(message) => self.message(message, times, out),
            Command::Hand(hand) => self.change(hand, out),
            Command::Compose(part) => self.compose(part, out),
            Command::Feed(feeding) => self.feed(feeding, times, out),
            Command::Echo(switch) => {
                self.echoing = matches!(switch, Switch::On);
                Ok(writeln!(out, "echo {switch}")?)
            }
            Command::Ask(question) => self.ask(question, times, out),
        }
    }

    fn call(&mut self, call: &Call<'_>) -> Reply {
        match *call {
            Call::Default { bearer } => activate_default_on(&mut self.table, bearer),
            Call::Dedicated {
                bearer,
                link,
                transaction,
                value,
            } => {
                let value = octets_of(value, &self.portions);
                activate_dedicated_on(&mut self.table, bearer, link, transaction, value)
            }
            Call::Modify {
                bearer,
                transaction,
                value,
            } => {
                let value = octets_of(value, &self.portions);
                modify_on(&mut self.table, bearer, transaction, value)
            }
            Call::Deactivate {
                bearer,
                transaction,
            } => deactivate_on(&mut self.table, bearer, transaction),
            Call::Start {
                transaction,
                bearer,
            } => start_on(&mut self.table, transaction, bearer),
            Call::Reject { transaction, cause } => reject_on(&mut self.table, transaction, cause),
        }
    }

    // The bearers that the last time deactivated stand behind the reply.
    fn synchronise<W: Write>(
        &mut self,
        value: &[u8],
        times: usize,
        out: &mut W,
    ) -> Result<(), LineError> {
        let mut before = active(&self.table);
        let reply = last_of(times, || {
            before = active(&self.table);
            synchronise_on(&mut self.table, value)
        });
        write!(out, "{}", CallLine(&reply))?;
        if let calls::Answer::Synchronised = reply.answer {
            let after = active(&self.table);
            for (identity, (was, is)) in identities().zip(before.iter().zip(&after)) {
                if *was && !*is {
                    write!(out, " {identity}")?;
                }
            }
        }
        Ok(writeln!(out)?)
    }

    fn message<W: Write>(
        &mut self,
        message: &[u8],
        times: usize,
        out: &mut W,
    ) -> Result<(), LineError> {
        let answered = last_of(times, || handle_on(&mut self.table, message));
        writeln!(out, "{}", CallLine(&answered.reply))?;
        let AnswerMessage { count, octets } = answered.answer;
        if let Some(sent @ [_, ..]) = octets.get(..usize::from(count)) {
            writeln!(out, "send {}", Hex(sent))?;
        }
        Ok(())
    }

    fn bearer_mut(&mut self, identity: u8) -> Option<&mut Bearer> {
        self.table.bearers.get_mut(index_of(identity))
    }

    // Where a bearer was changed every held list is then as the rule has it: a table made by hand is spoilt by its entries alone.
    fn change<W: Write>(&mut self, hand: Hand, out: &mut W) -> Result<(), LineError> {
        match hand {
            Hand::Force {
                bearer: identity,
                role,
                transaction,
            } => {
                if let Some(bearer) = self.bearer_mut(identity) {
                    bearer.role = role;
                    bearer.transaction = transaction;
                }
                self.table = Table::table_of(self.table.bearers);
                writeln!(out, "forced {identity}")?;
            }
            Hand::Place {
                bearer: identity,
                placed,
            } => {
                let place = placed.place.value;
                if let Some(bearer) = self.bearer_mut(identity) {
                    bearer.row[place] = placed.filter;
                }
                self.table = Table::table_of(self.table.bearers);
                writeln!(out, "placed {identity} {place}")?;
            }
            Hand::Entry {
                identity,
                position,
                bearer,
                place,
            } => {
                let list = self
                    .table
                    .lists
                    .chunks_mut(PRECEDENCES)
                    .nth(index_of(identity));
                if let Some(cell) = list.and_then(|list| list.get_mut(usize::from(position))) {
                    // As `decoded` reads it; the table's own writing of an entry is not public.
                    *cell = bearer << 4 | place.value as u8;
                }
                writeln!(out, "forced-entry")?;
            }
        }
        Ok(())
    }

    fn compose<W: Write>(&mut self, part: Part, out: &mut W) -> Result<(), LineError> {
        match part {
            Part::Kind(kind) => {
                self.operation = Some(empty_operation(kind));
                writeln!(out, "composing {kind}")?;
            }
            Part::Filter(placed) => {
                let place = placed.place.value;
                let operation = self.operation.as_mut().ok_or(BadLine)?;
                operation.filters[place] = placed.filter;
                let filter = &placed.filter;
                writeln!(out, "{}", FilterLine { place, filter })?;
            }
            Part::Identifier(place) => {
                let identifier = place.value;
                let operation = self.operation.as_mut().ok_or(BadLine)?;
                operation.marks[identifier] = true;
                writeln!(out, "identifier {identifier}")?;
            }
        }
        Ok(())
    }

    fn feed<W: Write>(
        &mut self,
        feeding: Feeding<'_>,
        times: usize,
        out: &mut W,
    ) -> Result<(), LineError> {
        match feeding {
            Feeding::Announce(length) => {
                let announced = last_of(times, || self.portions.announce(usize::from(length)));
                match announced {
                    Ok(()) => writeln!(out, "announced {length}")?,
                    Err(_) => writeln!(out, "cause {}", portions_number(announced))?,
                }
            }
            Feeding::Portion(portion) => {
                last_of(times, || self.portions.feed(portion))?;
                writeln!(out, "fed {}", self.portions.fed)?;
            }
            Feeding::Finish => {
                let finished = last_of(times, || self.portions.finish());
                if finished.answer.is_err() {
                    return Err(LineError::Refused(finish_number(&finished)));
                }
                write!(out, "{}", ElementLines(&finished.element))?;
            }
            Feeding::Force {
                announced,
                fed,
                octets,
            } => {
                let mut state = Portions {
                    announced,
                    fed,
                    octets: [0; LONGEST],
                };
                let room = state.octets.get_mut(..octets.len()).ok_or(BadLine)?;
                room.copy_from_slice(octets);
                self.portions = state;
                writeln!(out, "forced-fed")?;
            }
        }
        Ok(())
    }

    fn ask<W: Write>(
        &self,
        question: Question<'_>,
        times: usize,
        out: &mut W,
    ) -> Result<(), LineError> {
        match question {
            Question::Route { default, header } => {
                match last_of(
                    times,
                    || route::choose::route(&self.table, default, &header),
                )? {
                    Route::Bearer(bearer) => writeln!(out, "bearer {bearer}")?,
                    Route::Discard => writeln!(out, "discard")?,
                }
            }
            Question::Why { default, header } => {
                match last_of(times, || route::why::why(&self.table, default, &header))? {
                    Why::Filter {
                        bearer,
                        place,
                        precedence,
                    } => writeln!(
                        out,
                        "bearer {bearer} filter {place} precedence {precedence}"
                    )?,
                    Why::Default(bearer) => writeln!(out, "bearer {bearer} default")?,
                    Why::Discard => writeln!(out, "discard")?,
                }
            }
            Question::Check => {
                last_of(times, || self.check())?;
                writeln!(out, "well formed")?;
            }
            Question::Show => write!(out, "{}", TableLines(&self.table))?,
            Question::List(identity) => {
                let table = &self.table;
                write!(out, "{}", ListLines { table, identity })?;
            }
            Question::Element(value) => self.element(value, times, out)?,
            Question::Rewrite { value, room } => self.rewrite(value, room, times, out)?,
            Question::Emit(room) => {
                let operation = self.operation.as_ref().ok_or(BadLine)?;
                let write = |buffer: &mut [u8]| element::write::write(operation, buffer);
                put_written(room, times, write, out)?;
            }
            Question::Status(room) => {
                let write = |buffer: &mut [u8]| {
                    write_status(&self.table, buffer).map(|()| STATUS_OCTETS)
                };
                put_written(room, times, write, out)?;
            }
            Question::Compare(value) => self.compare(value, times, out)?,
            Question::Parse(message) => {
                let read = &last_of(times, || read_message(message))?;
                writeln!(out, "{}", MessageLine { read, message })?;
            }
            Question::Assemble(message) => {
                let kind = message_kind(message.kind, message.carried);
                let write = |buffer: &mut [u8]| {
                    write_message(
                        kind,
                        message.bearer,
                        message.transaction,
                        message.tft,
                        buffer,
                    )
                };
                put_written(message.room, times, write, out)?;
            }
        }
        Ok(())
    }

    // Never inlined: each line that `ask` answers would clear the room for the element.
    #[inline(never)]
    fn element<W: Write>(
        &self,
        value: Value<'_>,
        times: usize,
        out: &mut W,
    ) -> Result<(), LineError> {
        let value = octets_of(value, &self.portions);
        for _ in 1..times {
            read(value);
        }
        Ok(write!(out, "{}", ElementLines(&read(value)))?)
    }

    // Never inlined, as `element`.
    #[inline(never)]
    fn rewrite<W: Write>(
        &self,
        value: Value<'_>,
        room: Room,
        times: usize,
        out: &mut W,
    ) -> Result<(), LineError> {
        let octets = octets_of(value, &self.portions);
        if let Answer::Refused(_) = read(octets).answer {
            return self.element(value, times, out);
        }
        let write = |buffer: &mut [u8]| element::write::write(&read(octets), buffer);
        put_written(room, times, write, out)
    }

    // Never inlined: of a test that changes nothing and is seen through, a compiler leaves one of a million.
    #[inline(never)]
    fn check(&self) -> Result<(), LineError> {
        if self.table.well_formed() {
            Ok(())
        } else {
            Err(Refusal::NotWellFormed.into())
        }
    }

    // The bearers that are active on both sides, here alone, and at the network alone. The numbers are those of `synchronise`.
    fn compare<W: Write>(&self, theirs: &[u8], times: usize, out: &mut W) -> Result<(), LineError> {
        let mut ours = [0; STATUS_OCTETS];
        last_of(times, || write_status(&self.table, &mut ours))?;
        if theirs.len() != STATUS_OCTETS {
            return Err(Refusal::StatusLength.into());
        }
        for (name, here, there) in [
            ("both", true, true),
            (" here", true, false),
            (" network", false, true),
        ] {
            write!(out, "{name}")?;
            for identity in identities() {
                let shown = (
                    shown_active(&ours, identity),
                    shown_active(theirs, identity),
                );
                if shown == (here, there) {
                    write!(out, " {identity}")?;
                }
            }
        }
        Ok(writeln!(out)?)
    }
}

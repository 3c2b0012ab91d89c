// The modify message.
ghost use Rattle.std.specs.Prelude.{◌≡◌};
ghost use Rattle.filter.specs.Sizes.{place_count};
ghost use Rattle.table.specs.WellFormed.{RightLists};
ghost use Rattle.calls.specs.Steps.{empties};
ghost use Rattle.calls.specs.Modify.{deleted_filters, deleted_tft, modify_named, modify_of};

use crate::lay::lay;
use crate::reply::{Cause, Outcome, Refusal, Reply};
use crate::steps::{close, mismatches};
use element::head::{DELETE_TFT, head_fine, operation_of};
use element::read::read;
use element::{Answer, BareOperation, SetOperation};
use filter::component::PLACES;
use table::Table;
use table::bearer::{BEARERS, index_of};

// Whether the bearer at index i holds filters, and each in a place that is marked.
#[tactic(auto, using(crate::proofs::Changing::empties_past, laws::proofs::Index::any_more, laws::proofs::Index::any_start, laws::proofs::Index::done), unfolding(crate::specs::Steps::empties, crate::specs::Steps::holds_in, crate::specs::Steps::stays_in))]
fn empties(table: &Table, i: usize, marks: &[bool; PLACES]) -> bool
    ensures { result ≡ empties table.now i marks.now }
{
    table.typed();
    if i >= BEARERS {
        return false;
    }
    let mut holds = false;
    let mut stays = false;
    for (j, filter) in table.bearers[i].row.iter().enumerate() {
        let held = filter.held();
        holds = holds | held;
        stays = stays | (held & !marks[j]);
    }
    holds & !stays
}

// A dedicated bearer keeps one filter of those it has.
#[tactic(auto, using(crate::proofs::Changing::deleted_made), unfolding(crate::specs::Modify::deleted_filters))]
fn delete_filters(table: &mut Table, bearer: u8, marks: &[bool; PLACES]) -> Reply
    requires { RightLists table.old }
    ensures { record { table = table.new; reply = result } ≡ deleted_filters table.old bearer marks.now }
{
    table.typed();
    if table.role_of(bearer).is_dedicated() && empties(table, index_of(bearer), marks) {
        return Reply::reject(bearer, Cause::TftSemantics);
    }
    table.delete(index_of(bearer), marks);
    Reply::accept(bearer)
}

#[tactic(auto, unfolding(crate::specs::Modify::deleted_tft))]
fn delete_tft(table: &mut Table, bearer: u8) -> Reply
    requires { RightLists table.old }
    ensures { record { table = table.new; reply = result } ≡ deleted_tft table.old bearer }
{
    table.typed();
    table.delete(index_of(bearer), &[true; PLACES]);
    Reply::accept(bearer)
}

#[tactic(auto, unfolding(crate::specs::Modify::modify_named, crate::specs::Modify::modify_read))]
fn modify_named(table: &mut Table, bearer: u8, value: &[u8]) -> Reply
    requires { RightLists table.old }
    ensures { record { table = table.new; reply = result } ≡ modify_named table.old bearer value.now }
{
    table.typed();
    let role = table.role_of(bearer);
    if role.is_idle() {
        return Reply::reject(bearer, Cause::BearerIdentity);
    }
    if !head_fine(value) {
        return Reply::reject_head(bearer);
    }
    if role.is_dedicated() && operation_of(value) == DELETE_TFT {
        return Reply::reject(bearer, Cause::TftSemantics);
    }
    let element = read(value);
    match element.answer {
        Answer::Refused(refusal) => Reply::reject_for(bearer, refusal),
        Answer::Filters(SetOperation::Create) => lay(table, bearer, &element.filters, true),
        Answer::Filters(SetOperation::Add | SetOperation::Replace) => {
            lay(table, bearer, &element.filters, false)
        }
        Answer::Identifiers => delete_filters(table, bearer, &element.marks),
        Answer::Bare(BareOperation::DeleteTft) => delete_tft(table, bearer),
        Answer::Bare(BareOperation::NoOperation) => Reply::accept(bearer),
    }
}

// On a table that is lent.
#[tactic(auto, using(crate::proofs::Changing::closed_right, crate::proofs::Changing::well_right), unfolding(crate::specs::Modify::modify_of))]
pub fn modify_on(table: &mut Table, bearer: u8, transaction: u8, value: &[u8]) -> Reply
    ensures { record { table = table.new; reply = result } ≡ modify_of table.old bearer transaction value.now }
{
    table.typed();
    if !table.well_formed() {
        return Reply::refuse(Refusal::NotWellFormed);
    }
    if mismatches(table, transaction) {
        return Reply::reject(bearer, Cause::Transaction);
    }
    close(table, transaction);
    modify_named(table, bearer, value)
}

pub fn modify(table: Table, bearer: u8, transaction: u8, value: &[u8]) -> Outcome
    ensures { result ≡ modify_of table bearer transaction value.now }
{
    let mut table = table;
    let reply = modify_on(&mut table, bearer, transaction, value);
    Outcome { table, reply }
}

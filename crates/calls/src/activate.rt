// Default and dedicated activation.
ghost use Rattle.std.specs.Prelude.{◌≡◌};
ghost use Rattle.table.specs.WellFormed.{WellFormed};
ghost use Rattle.calls.specs.Others.{activate_default_of, activate_named, activate_dedicated_of};

use crate::lay::lay;
use crate::reply::{Cause, Outcome, Refusal, Reply};
use crate::steps::{close, is_available, mismatches};
use element::Answer;
use element::head::{CREATE, head_fine, operation_of};
use element::read::read;
use table::bearer::index_of;
use table::{Role, Table};

// On a table that is lent.
#[tactic(auto, using(crate::proofs::Changing::opened_empty, crate::proofs::Changing::well), unfolding(crate::specs::Others::activate_default_of))]
pub fn activate_default_on(table: &mut Table, bearer: u8) -> Reply
    ensures { record { table = table.new; reply = result } ≡ activate_default_of table.old bearer }
{
    table.typed();
    if !table.well_formed() {
        return Reply::refuse(Refusal::NotWellFormed);
    }
    if !is_available(table, bearer) {
        return Reply::reject(bearer, Cause::BearerIdentity);
    }
    table.open(index_of(bearer), Role::Default);
    Reply::accept(bearer)
}

pub fn activate_default(table: Table, bearer: u8) -> Outcome
    ensures { result ≡ activate_default_of table bearer }
{
    let mut table = table;
    let reply = activate_default_on(&mut table, bearer);
    Outcome { table, reply }
}

#[tactic(auto, using(crate::proofs::Changing::opened_empty), unfolding(crate::specs::Others::activate_named, crate::specs::Others::activate_read))]
fn activate_named(table: &mut Table, bearer: u8, link: u8, value: &[u8]) -> Reply
    requires { WellFormed table.old }
    ensures { record { table = table.new; reply = result } ≡ activate_named table.old bearer link value.now }
{
    table.typed();
    if !(is_available(table, bearer) && table.role_of(link).is_default()) {
        return Reply::reject(bearer, Cause::BearerIdentity);
    }
    if !head_fine(value) {
        return Reply::reject_head(bearer);
    }
    if operation_of(value) != CREATE {
        return Reply::reject(bearer, Cause::TftSemantics);
    }
    let element = read(value);
    match element.answer {
        Answer::Refused(refusal) => Reply::reject_for(bearer, refusal),
        // A create reads as a create or as a cause.
        _ => {
            table.open(index_of(bearer), Role::Dedicated(link));
            lay(table, bearer, &element.filters, true)
        }
    }
}

// On a table that is lent.
#[tactic(auto, using(crate::proofs::Changing::well_right), unfolding(crate::specs::Others::activate_dedicated_of))]
pub fn activate_dedicated_on(
    table: &mut Table,
    bearer: u8,
    link: u8,
    transaction: u8,
    value: &[u8],
) -> Reply
    ensures { record { table = table.new; reply = result } ≡ activate_dedicated_of table.old bearer link transaction value.now }
{
    table.typed();
    if !table.well_formed() {
        return Reply::refuse(Refusal::NotWellFormed);
    }
    if mismatches(table, transaction) {
        return Reply::reject(bearer, Cause::Transaction);
    }
    close(table, transaction);
    activate_named(table, bearer, link, value)
}

pub fn activate_dedicated(
    table: Table,
    bearer: u8,
    link: u8,
    transaction: u8,
    value: &[u8],
) -> Outcome
    ensures { result ≡ activate_dedicated_of table bearer link transaction value.now }
{
    let mut table = table;
    let reply = activate_dedicated_on(&mut table, bearer, link, transaction, value);
    Outcome { table, reply }
}

// Deactivation, and the network's reject of a resource modification.
ghost use Rattle.std.specs.Prelude.{◌≡◌};
ghost use Rattle.calls.specs.Others.{deactivate_of, reject_of};

use crate::reply::{Answer, Outcome, Refusal, Reply};
use crate::steps::{close, drop_bearer, is_open, owner_of};
use table::Table;

const INVALID_BEARER: u8 = 43;

// On a table that is lent.
#[tactic(auto, using(crate::proofs::Changing::closed_right, crate::proofs::Changing::well_right), unfolding(crate::specs::Others::deactivate_of))]
pub fn deactivate_on(table: &mut Table, bearer: u8, transaction: u8) -> Reply
    ensures { record { table = table.new; reply = result } ≡ deactivate_of table.old bearer transaction }
{
    table.typed();
    if !table.well_formed() {
        return Reply::refuse(Refusal::NotWellFormed);
    }
    close(table, transaction);
    drop_bearer(table, bearer);
    Reply::accept(bearer)
}

pub fn deactivate(table: Table, bearer: u8, transaction: u8) -> Outcome
    ensures { result ≡ deactivate_of table bearer transaction }
{
    let mut table = table;
    let reply = deactivate_on(&mut table, bearer, transaction);
    Outcome { table, reply }
}

// On a table that is lent.
#[tactic(auto, using(crate::proofs::Changing::closed_right, crate::proofs::Changing::well_right), unfolding(crate::specs::Others::reject_of))]
pub fn reject_on(table: &mut Table, transaction: u8, cause: u8) -> Reply
    ensures { record { table = table.new; reply = result } ≡ reject_of table.old transaction cause }
{
    table.typed();
    if !table.well_formed() {
        return Reply::refuse(Refusal::NotWellFormed);
    }
    if !is_open(table, transaction) {
        return Reply::refuse(Refusal::NotOpen);
    }
    let owner = owner_of(table, transaction);
    close(table, transaction);
    if cause == INVALID_BEARER {
        drop_bearer(table, owner);
    }
    Reply::alone(Answer::Closed(transaction))
}

pub fn reject(table: Table, transaction: u8, cause: u8) -> Outcome
    ensures { result ≡ reject_of table transaction cause }
{
    let mut table = table;
    let reply = reject_on(&mut table, transaction, cause);
    Outcome { table, reply }
}

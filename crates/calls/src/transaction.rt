// The start of a transaction.
ghost use Rattle.std.specs.Prelude.{◌≡◌};
ghost use Rattle.calls.specs.Others.{start_of};

use crate::reply::{Answer, Outcome, Refusal, Reply};
use crate::steps::is_open;
use table::Table;
use table::bearer::index_of;

// On a table that is lent.
#[tactic(auto, using(crate::proofs::Changing::started_made, crate::proofs::Changing::well_right), unfolding(crate::specs::Others::start_of))]
pub fn start_on(table: &mut Table, transaction: u8, bearer: u8) -> Reply
    ensures { record { table = table.new; reply = result } ≡ start_of table.old transaction bearer }
{
    table.typed();
    if !table.well_formed() {
        return Reply::refuse(Refusal::NotWellFormed);
    }
    if transaction == 0 || transaction == 255 {
        return Reply::refuse(Refusal::NoIdentity);
    }
    if table.role_of(bearer).is_idle() {
        return Reply::refuse(Refusal::NoBearer);
    }
    if table.transaction_at(index_of(bearer)) != 0 {
        return Reply::refuse(Refusal::BearerBusy);
    }
    if is_open(table, transaction) {
        return Reply::refuse(Refusal::AlreadyOpen);
    }
    table.start(index_of(bearer), transaction);
    Reply::alone(Answer::Started(transaction))
}

pub fn start(table: Table, transaction: u8, bearer: u8) -> Outcome
    ensures { result ≡ start_of table transaction bearer }
{
    let mut table = table;
    let reply = start_on(&mut table, transaction, bearer);
    Outcome { table, reply }
}

// The network's status, taken.
ghost use Rattle.std.specs.Prelude.{◌≡◌};
ghost use Rattle.table.specs.Tables.{build};
ghost use Rattle.table.specs.WellFormed.{RightLists};
ghost use Rattle.table.specs.Changes.{cut_view};
ghost use Rattle.status.specs.Take.{stays_by, gone_by, synchronise_of};
ghost use Rattle.status.specs.Inner.Take.{mark_of};

use crate::value::{STATUS_OCTETS, shown_active};
use calls::{Answer, Outcome, Refusal, Reply};
use table::bearer::{BEARERS, FIRST_IDENTITY, index_of, is_identity};
use table::{Bearer, Role, Table};

// "a default takes its connection": a dedicated bearer stays only where its default does.
fn stays_by(value: &[u8], identity: u8, role: Role) -> bool
    ensures { result ≡ stays_by value.now identity role }
{
    match role {
        Role::Idle => true,
        Role::Default => shown_active(value, identity),
        Role::Dedicated(link) => shown_active(value, identity) && shown_active(value, link),
    }
}

// Where the list of a connection is marked; 0 where no default can have that identity.
#[tactic(auto, unfolding(crate::specs::Inner::Take::mark_of))]
fn mark_of(connection: u8) -> usize
    ensures { result ≡ mark_of connection }
{
    if is_identity(connection) {
        index_of(connection)
    } else {
        0
    }
}

// Only the lists of connections that lose bearers are made anew.
#[tactic(auto, using(crate::proofs::Taking::gone_there, crate::proofs::Taking::kept_there, crate::proofs::Taking::mark_small, crate::proofs::Taking::stays_still, table::proofs::Rows::store_done, table::proofs::Rows::store_start, table::proofs::Rows::store_still, crate::proofs::Taking::touch_done, crate::proofs::Taking::touch_more, crate::proofs::Taking::touch_skip, crate::proofs::Taking::touch_start, crate::proofs::Taking::touched_relisted))]
fn drop_unshown(table: &mut Table, value: &[u8])
    requires { RightLists table.old }
    ensures { table.new ≡ build (cut_view table.old (gone_by value.now table.old)) }
{
    table.typed();
    let mut touched = [false; BEARERS];
    // By index: whether a bearer goes is asked of the table that it stands in.
    for i in 0..BEARERS {
        if !stays_by(value, i as u8 + FIRST_IDENTITY, table.role_at(i)) {
            touched[mark_of(table.connection_at(i))] = true;
            table.bearers[i] = Bearer::idle_bearer();
        }
    }
    table.relist(&touched);
}

// On a table that is lent.
#[tactic(auto, using(crate::proofs::Taking::lists_right), unfolding(crate::specs::Take::synchronise_of))]
pub fn synchronise_on(table: &mut Table, value: &[u8]) -> Reply
    ensures { record { table = table.new; reply = result } ≡ synchronise_of table.old value.now }
{
    table.typed();
    if !table.well_formed() {
        return Reply::refuse(Refusal::NotWellFormed);
    }
    if value.len() != STATUS_OCTETS {
        return Reply::refuse(Refusal::StatusLength);
    }
    drop_unshown(table, value);
    Reply::alone(Answer::Synchronised)
}

pub fn synchronise(table: Table, value: &[u8]) -> Outcome
    ensures { result ≡ synchronise_of table value.now }
{
    let mut table = table;
    let reply = synchronise_on(&mut table, value);
    Outcome { table, reply }
}

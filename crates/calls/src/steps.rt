// The steps that calls are made of: questions about a table, and changes to one whose lists are right.
ghost use Rattle.std.specs.Prelude.{◌≡◌, eqb};
ghost use Rattle.std.specs.List.{list_any};
ghost use Rattle.table.specs.WellFormed.{RightLists};
ghost use Rattle.calls.specs.Steps.{is_open, owner_of, closed, dropped};
ghost use Rattle.calls.specs.Modify.{mismatch};
ghost use Rattle.calls.specs.Others.{available};

use table::bearer::{FIRST_IDENTITY, LAST_TRANSACTION, index_of, is_identity};
use table::{Role, Table};

fn opens_any(table: &Table, transaction: u8) -> bool
    ensures { result ≡ list_any (λ b. eqb b.transaction transaction) table.now.bearers }
{
    table
        .bearers
        .iter()
        .any(|bearer| bearer.transaction == transaction)
}

#[tactic(auto, using(crate::proofs::Changing::opens_any_is), unfolding(crate::specs::Steps::is_open))]
pub(crate) fn is_open(table: &Table, transaction: u8) -> bool
    ensures { result ≡ is_open table.now transaction }
{
    table.typed();
    (transaction != 0) & (transaction <= LAST_TRANSACTION) & opens_any(table, transaction)
}

pub(crate) fn mismatches(table: &Table, transaction: u8) -> bool
    ensures { result ≡ mismatch table.now transaction }
{
    transaction != 0 && !is_open(table, transaction)
}

// The bearer that a transaction is open on; 0, which is no identity, where there is none.
#[tactic(auto, using(laws::proofs::Index::done, laws::proofs::Index::next), unfolding(laws::specs::Index::last_below, table::specs::Changes::opens_at, crate::specs::Steps::owner_of))]
pub(crate) fn owner_of(table: &Table, transaction: u8) -> u8
    ensures { result ≡ owner_of table.now transaction }
{
    let mut owner: u8 = 0;
    for (i, bearer) in table.bearers.iter().enumerate() {
        if bearer.transaction == transaction {
            owner = i as u8 + FIRST_IDENTITY;
        }
    }
    owner
}

pub(crate) fn is_available(table: &Table, bearer: u8) -> bool
    ensures { result ≡ available table.now bearer }
{
    is_identity(bearer) && table.role_of(bearer).is_idle()
}

// A match is closed; 0 means none.
#[tactic(auto, using(crate::proofs::Changing::closed_zero, crate::proofs::Changing::closed_made))]
pub(crate) fn close(table: &mut Table, transaction: u8)
    requires { RightLists table.old }
    ensures { table.new ≡ closed table.old transaction }
{
    table.typed();
    if transaction != 0 {
        table.close(transaction);
    }
}

// A default takes its connection along.
#[tactic(auto, using(crate::proofs::Changing::dropped_idle, crate::proofs::Changing::dropped_default, crate::proofs::Changing::dropped_dedicated))]
pub(crate) fn drop_bearer(table: &mut Table, bearer: u8)
    requires { RightLists table.old }
    ensures { table.new ≡ dropped table.old bearer }
{
    let role = table.role_of(bearer);
    match role {
        Role::Idle => {}
        Role::Default => table.drop_connection(bearer),
        Role::Dedicated(_) => table.drop_bearer(index_of(bearer)),
    }
}

// One walk over the bearers of a table and all their filters.
ghost use Rattle.std.specs.Prelude.{◌≡◌, ◌+◌, ◌≤◌, length, OnSome};
ghost use Rattle.std.specs.List.{list_all};
ghost use Rattle.filter.specs.Coding.{empty_place};
ghost use Rattle.filter.specs.Sizes.{precedence_count};
ghost use Rattle.table.specs.Bearers.{last_identity};
ghost use Rattle.table.specs.WellFormed.{link_fine, transaction_fine, row_precedences};
ghost use Rattle.table.specs.Inner.Walk.{precedence_of, marked_with};
ghost use Rattle.table.specs.Inner.Lists.{place_uplinks, row_uplinks, uplinks_if_fine};

use crate::bearer::{BEARERS, FIRST_IDENTITY, LAST_TRANSACTION, Role, Table};
use crate::list::{begins_at, cell_of};
use crate::marks::{bit_of, marked_before};
use filter::Filter;
use filter::component::{PLACES, PRECEDENCES};

fn transaction_fine(idle: bool, transaction: u8) -> bool
    ensures { result ≡ transaction_fine idle transaction }
{
    (!idle || transaction == 0) && transaction <= LAST_TRANSACTION
}

// How many uplink filters a place has, none or one, where what it holds may stand there, none of its connection has its precedence so far, and if it is for the
// uplink it stands in its list, which begins at `from`.
#[tactic(auto, using(crate::proofs::Walks::fine_never, crate::proofs::Walks::unheld_counts, crate::proofs::Walks::again_never, crate::proofs::Walks::down_counts, crate::proofs::Walks::missing_never, crate::proofs::Walks::up_counts))]
fn place_uplinks(
    seen: &mut [u16],
    bit: u16,
    lists: &[u8],
    from: usize,
    cell: u8,
    filter: &Filter,
) -> Option<u16>
    requires { (length seen.old ≡ precedence_count) × (from + precedence_count ≤ length lists.now) }
    ensures count { result ≡ place_uplinks bit seen.old lists.now from cell filter.now }
    ensures marks { OnSome result (seen.new ≡ (marked_with bit seen.old (precedence_of filter.now)).seen) }
{
    if !filter.place_fine() {
        return None;
    }
    if !filter.held() {
        return Some(0);
    }
    let precedence = filter.precedence as usize;
    if marked_before(seen, precedence, bit) {
        return None;
    }
    if !filter.uplink() {
        return Some(0);
    }
    if lists[from + precedence] != cell {
        return None;
    }
    Some(1)
}

// How many uplink filters a row has, where all of it is fine.
#[tactic(auto, using(crate::proofs::Walks::row_long))]
fn row_uplinks(
    seen: &mut [u16],
    bit: u16,
    lists: &[u8],
    from: usize,
    bearer: u8,
    row: &[Filter; PLACES],
) -> Option<u16>
    requires { (length seen.old ≡ precedence_count) × (from + precedence_count ≤ length lists.now) × (bearer ≤ last_identity) }
    ensures count { result ≡ row_uplinks bit seen.old lists.now from bearer row.now }
    ensures marks { OnSome result (seen.new ≡ (marked_with bit seen.old (row_precedences row.now)).seen) }
{
    let mut uplinks = 0;
    for (j, filter) in row.iter().enumerate() {
        uplinks += place_uplinks(seen, bit, lists, from, cell_of(bearer, j), filter)?;
    }
    Some(uplinks)
}

// Never inlined: in the walk the row's address has no register, and is fetched anew for each test.
#[inline(never)]
fn holds_nothing(row: &[Filter; PLACES]) -> bool
    ensures { result ≡ list_all empty_place row.now }
{
    row.iter().all(|filter| filter.empty_place())
}

impl Table {
    fn link_fine(&self, role: Role) -> bool
        ensures { result ≡ link_fine self.now role }
    {
        match role {
            Role::Idle | Role::Default => true,
            Role::Dedicated(link) => self.role_of(link).is_default(),
        }
    }

    // How many uplink filters the bearers have, where all is fine of each by itself and no precedence is there twice.
    #[tactic(auto, using(crate::proofs::Cells::begins_inside, crate::proofs::Walks::table_long, crate::proofs::Walks::table_done))]
    pub(crate) fn uplinks_if_fine(&self) -> Option<u16>
        ensures { result ≡ uplinks_if_fine self.now }
    {
        self.typed();
        let mut seen = [0; PRECEDENCES];
        let mut uplinks: u16 = 0;
        for (i, bearer) in self.bearers.iter().enumerate() {
            let role = bearer.role;
            let idle = role.is_idle();
            if !transaction_fine(idle, bearer.transaction) || !self.link_fine(role) {
                return None;
            }
            if idle {
                if !holds_nothing(&bearer.row) {
                    return None;
                }
            } else {
                let connection = role.connection(i);
                uplinks += row_uplinks(
                    &mut seen,
                    bit_of(connection),
                    &self.lists,
                    begins_at(connection),
                    i as u8 + FIRST_IDENTITY,
                    &bearer.row,
                )?;
            }
        }
        Some(uplinks)
    }
}

// The ordered list of each connection, held with the table.
ghost use Rattle.std.specs.Prelude.{◌≡◌, ◌+◌, ◌<◌, ◌≤◌, length};
ghost use Rattle.laws.specs.Index.{count_below};
ghost use Rattle.filter.specs.Sizes.{place_count, precedence_count};
ghost use Rattle.table.specs.Bearers.{last_identity};
ghost use Rattle.table.specs.Lists.{is_uplink, cell_of, decoded, held_count, held_at};
ghost use Rattle.table.specs.Tables.{table_of, only_of, relisted_of};
ghost use Rattle.table.specs.Inner.Lists.{begins_at, touches, put_row, cleared, names_at};

use crate::bearer::{BEARERS, Bearer, FIRST_IDENTITY, HELD, Table, index_of, is_identity};
use filter::Filter;
use filter::component::{PLACES, PRECEDENCES};

// The filter stands at `place`, its identifier, of the row of `bearer`. The entry 0, 0 is nothing: no bearer has identity 0.
#[derive(Clone, Copy, PartialEq, Eq)]
pub struct Entry {
    pub bearer: u8,
    pub place: u8,
}

pub fn is_uplink(filter: &Filter) -> bool
    ensures { result ≡ is_uplink filter.now }
{
    filter.held() && filter.uplink()
}

// An entry is held as an octet, sixteen times the bearer and the place.
const PER_BEARER: u8 = PLACES as u8;

pub(crate) fn cell_of(bearer: u8, j: usize) -> u8
    requires { (bearer ≤ last_identity) × (j < place_count) }
    ensures { result ≡ cell_of bearer j }
{
    bearer * PER_BEARER + j as u8
}

#[tactic(auto, unfolding(crate::specs::Lists::decoded))]
pub fn decoded(cell: u8) -> Entry
    ensures { result ≡ decoded cell }
{
    Entry {
        bearer: cell / PER_BEARER,
        place: cell % PER_BEARER,
    }
}

// Where the list of a connection begins; 0 where no default can have that identity.
#[tactic(auto, unfolding(crate::specs::Inner::Lists::begins_at))]
pub(crate) fn begins_at(connection: u8) -> usize
    ensures { result ≡ begins_at connection }
{
    if is_identity(connection) {
        index_of(connection) * PRECEDENCES
    } else {
        0
    }
}

#[tactic(auto, unfolding(crate::specs::Inner::Lists::cleared))]
fn clear(cells: &mut [u8], from: usize)
    requires { (length cells.old ≡ held_count) × (from + precedence_count ≤ held_count) }
    ensures { cells.new ≡ cleared from cells.old }
{
    cells[from..from + PRECEDENCES].fill(0);
}

#[tactic(auto, using(crate::proofs::Cells::row_done, crate::proofs::Cells::row_long, crate::proofs::Cells::row_put, crate::proofs::Cells::row_skip, laws::proofs::Index::walk_start))]
fn put_row(cells: &mut [u8], from: usize, bearer: u8, row: &[Filter; PLACES])
    requires { (length cells.old ≡ held_count) × (from + precedence_count ≤ held_count) × (bearer ≤ last_identity) }
    ensures { cells.new ≡ put_row row.now from bearer cells.old }
{
    for (j, filter) in row.iter().enumerate() {
        if is_uplink(filter) {
            cells[from + filter.precedence as usize] = cell_of(bearer, j);
        }
    }
}

#[tactic(auto, using(crate::proofs::Walks::in_eleven))]
fn is_touched(connection: u8, touched: &[bool; BEARERS]) -> bool
    ensures { result ≡ touches touched.now connection }
{
    is_identity(connection) && touched[index_of(connection)]
}

// For `relist`, where one connection changed.
pub fn only(identity: u8) -> [bool; BEARERS]
    ensures { result ≡ only_of identity }
{
    let mut touched = [false; BEARERS];
    for (i, is_touched) in touched.iter_mut().enumerate() {
        *is_touched = i as u8 + FIRST_IDENTITY == identity;
    }
    touched
}

impl Table {
    // Of an identity out of range: nothing.
    #[tactic(auto, using(crate::proofs::Walks::in_eleven), unfolding(crate::specs::Lists::decoded))]
    pub fn entry_at(&self, identity: u8, position: u8) -> Entry
        ensures { result ≡ held_at self.now identity position }
    {
        if is_identity(identity) {
            decoded(self.lists[index_of(identity) * PRECEDENCES + position as usize])
        } else {
            decoded(0)
        }
    }

    // The lists of the identities touched, made anew from the bearers; the others stay as they are held.
    #[tactic(auto, using(crate::proofs::Cells::bearer_put, crate::proofs::Cells::bearer_skip, crate::proofs::Cells::bearers_long, crate::proofs::Cells::begins_inside, laws::proofs::Index::done, crate::proofs::Cells::emptied_long, crate::proofs::Cells::empty_more, crate::proofs::Cells::empty_skip, crate::proofs::Cells::made_done, crate::proofs::Typed::table_in_range, laws::proofs::Index::walk_start))]
    pub fn relist(&mut self, touched: &[bool; BEARERS])
        ensures { self.new ≡ relisted_of self.old touched.now }
    {
        self.typed();
        let Table { bearers, lists } = self;
        for (i, is_touched) in touched.iter().enumerate() {
            if *is_touched {
                clear(lists, i * PRECEDENCES);
            }
        }
        for (i, bearer) in bearers.iter().enumerate() {
            let connection = bearer.role.connection(i);
            if is_touched(connection, touched) {
                put_row(
                    lists,
                    begins_at(connection),
                    i as u8 + FIRST_IDENTITY,
                    &bearer.row,
                );
            }
        }
    }

    // Bearers with their lists, for those who kept a table without.
    #[tactic(auto, using(crate::proofs::Relisting::all_relisted))]
    pub fn table_of(bearers: [Bearer; BEARERS]) -> Table
        ensures { result ≡ table_of bearers }
    {
        let mut table = Table {
            bearers,
            lists: [0; HELD],
        };
        table.relist(&[true; BEARERS]);
        table
    }
}

// The entries of so many positions are counted in an octet: a sum over octets goes many at a time. HELD is 22 of them.
const PART: usize = 128;

#[tactic(auto, using(laws::proofs::Counts::count_le, laws::proofs::Counts::count_start, laws::proofs::Index::done, crate::proofs::Cells::names_more, crate::proofs::Cells::names_skip))]
fn entries_in(part: &[u8]) -> u8
    requires { length part.now ≡ 128 }
    ensures { result ≡ count_below (names_at part.now 0) 128 }
{
    let mut count: u8 = 0;
    for cell in part {
        if *cell != 0 {
            count += 1;
        }
    }
    count
}

#[tactic(auto, using(laws::proofs::Counts::count_le))]
pub(crate) fn entries(cells: &[u8]) -> u16
    requires { length cells.now ≡ held_count }
    ensures { result ≡ count_below (names_at cells.now 0) held_count }
{
    let mut count: u16 = 0;
    for part in cells.chunks_exact(PART) {
        count += entries_in(part) as u16;
    }
    count
}

// Bearers and the table of them.
ghost use Rattle.std.specs.Prelude.{◌≡◌, ◌-◌, ◌≤◌, ◌<◌};
ghost use Rattle.table.specs.Bearers.{is_idle, is_default, is_dedicated, is_identity, index_of, role_at, transaction_at, connection_of, in_connection, connection_at, role_of};
ghost use Rattle.table.specs.Ranges.{TableInRange};
ghost use Rattle.table.specs.Tables.{idle_bearer, empty_table};

use filter::Filter;
use filter::component::{PLACES, PRECEDENCES};

pub const FIRST_IDENTITY: u8 = 5;

pub const LAST_IDENTITY: u8 = 15;

pub const BEARERS: usize = 11;

// The octets of the held lists: one for each position of each identity's list.
pub const HELD: usize = BEARERS * PRECEDENCES;

pub const LAST_TRANSACTION: u8 = 254;

// A dedicated bearer is linked to the default with that identity.
#[derive(Clone, Copy, PartialEq, Eq)]
pub enum Role {
    Idle,
    Default,
    Dedicated(u8),
}

// `transaction` is 0 where none is open; the filter with identifier n stands in place n of the row.
#[derive(Clone, Copy)]
pub struct Bearer {
    pub role: Role,
    pub transaction: u8,
    pub row: [Filter; PLACES],
}

// The bearer with identity FIRST_IDENTITY stands first, and so does its list: PRECEDENCES octets, an entry each.
#[derive(Clone, Copy)]
pub struct Table {
    pub bearers: [Bearer; BEARERS],
    pub lists: [u8; HELD],
}

impl Role {
    pub fn is_idle(&self) -> bool
        ensures { result ≡ is_idle self.now }
    {
        matches!(self, Role::Idle)
    }

    pub fn is_default(&self) -> bool
        ensures { result ≡ is_default self.now }
    {
        matches!(self, Role::Default)
    }

    pub fn is_dedicated(&self) -> bool
        ensures { result ≡ is_dedicated self.now }
    {
        matches!(self, Role::Dedicated(_))
    }

    // Whether a bearer of this role at index i is of the connection.
    #[tactic(auto, using(laws::proofs::Says::says_and, laws::proofs::Says::says_eq, laws::proofs::Says::says_le, laws::proofs::Says::says_same, laws::proofs::Says::says_so))]
    pub fn in_connection(&self, i: usize, connection: u8) -> bool
        ensures { result ≡ in_connection connection i self.now }
    {
        match self {
            Role::Idle => connection == 0,
            Role::Default => FIRST_IDENTITY <= connection && i == index_of(connection),
            Role::Dedicated(link) => *link == connection,
        }
    }

    // The connection of a bearer of this role at index i: its default's identity, 0 of an idle one.
    pub(crate) fn connection(&self, i: usize) -> u8
        requires { i ≤ 250 }
        ensures { result ≡ connection_of i self.now }
    {
        match self {
            Role::Idle => 0,
            Role::Default => i as u8 + FIRST_IDENTITY,
            Role::Dedicated(link) => *link,
        }
    }
}

pub fn is_identity(identity: u8) -> bool
    ensures { result ≡ is_identity identity }
{
    FIRST_IDENTITY <= identity && identity <= LAST_IDENTITY
}

// The index of a bearer's identity; 0 below the first.
pub fn index_of(identity: u8) -> usize
    ensures { result ≡ index_of identity }
{
    identity.saturating_sub(FIRST_IDENTITY) as usize
}

impl Bearer {
    pub fn idle_bearer() -> Bearer
        ensures { result ≡ idle_bearer }
    {
        Bearer {
            role: Role::Idle,
            transaction: 0,
            row: [Filter::bare(0, 0); PLACES],
        }
    }
}

// What the types tell of a table: eleven bearers of sixteen places, every number in its range. Of a value it is known; of one that is lent, once it is read.
fn value_typed(table: Table)
    ensures { TableInRange table }
{}

impl Table {
    // The read is for the proof alone: nothing is left of it in what is compiled.
    pub fn typed(&self)
        ensures { TableInRange self.now }
    {
        value_typed(*self);
    }

    #[tactic(auto, using(crate::proofs::Listing::idle_lists), unfolding(crate::specs::Tables::empty_table))]
    pub fn empty_table() -> Table
        ensures { result ≡ empty_table }
    {
        Table {
            bearers: [Bearer::idle_bearer(); BEARERS],
            lists: [0; HELD],
        }
    }

    // Of an index past the end: idle.
    pub fn role_at(&self, i: usize) -> Role
        ensures { result ≡ role_at self.now i }
    {
        self.bearers.get(i).map_or(Role::Idle, |bearer| bearer.role)
    }

    // Of an index past the end: 0.
    pub fn transaction_at(&self, i: usize) -> u8
        ensures { result ≡ transaction_at self.now i }
    {
        self.bearers.get(i).map_or(0, |bearer| bearer.transaction)
    }

    // Of an identity out of range: idle.
    pub fn role_of(&self, identity: u8) -> Role
        ensures { result ≡ role_of self.now identity }
    {
        if is_identity(identity) {
            self.role_at(index_of(identity))
        } else {
            Role::Idle
        }
    }

    // Of an index past the end: 0.
    pub fn connection_at(&self, i: usize) -> u8
        ensures { result ≡ connection_at self.now i }
    {
        if i < BEARERS {
            self.bearers[i].role.connection(i)
        } else {
            0
        }
    }
}

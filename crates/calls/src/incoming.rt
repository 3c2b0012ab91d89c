// The new filters that a message brings, and what they do to the old ones, a row at a time.
ghost use Rattle.std.specs.Prelude.{◌≡◌, ◌<◌};
ghost use Rattle.laws.specs.Index.{tab};
ghost use Rattle.filter.specs.Sizes.{place_count, precedence_count};
ghost use Rattle.table.specs.Bearers.{bearer_count, in_row};
ghost use Rattle.calls.specs.Lay.{old, takes, conflict, loses, placed_in, loses_at};

use filter::Filter;
use filter::component::{PLACES, PRECEDENCES};
use table::Table;
use table::bearer::BEARERS;

// How a bearer stands to the message: whether it is the one that is named, and whether it is of the named one's connection.
#[derive(Clone, Copy)]
pub(crate) struct Standing {
    pub(crate) named: bool,
    pub(crate) connected: bool,
}

// They come in place of the named bearer's old filters or are laid over them, and `taken` tells of each precedence whether one of them has it.
#[derive(Clone, Copy)]
pub(crate) struct Incoming<'a> {
    filters: &'a [Filter; PLACES],
    creates: bool,
    taken: [bool; PRECEDENCES],
    ghost taken_right: { taken ≡ tab (takes filters.now) precedence_count },
}

#[tactic(auto, using(crate::proofs::Conflicts::taken_start, crate::proofs::Conflicts::taken_done, crate::proofs::Conflicts::taken_more))]
fn taken_by(filters: &[Filter; PLACES]) -> [bool; PRECEDENCES]
    ensures { result ≡ tab (takes filters.now) precedence_count }
{
    let mut taken = [false; PRECEDENCES];
    for filter in filters {
        let precedence = filter.precedence as usize;
        taken[precedence] = taken[precedence] | filter.held();
    }
    taken
}

impl<'a> Incoming<'a> {
    pub(crate) fn new(filters: &'a [Filter; PLACES], creates: bool) -> Incoming<'a>
        ensures filters { result.filters.now ≡ filters.now }
        ensures creates { result.creates ≡ creates }
    {
        Incoming {
            filters,
            creates,
            taken: taken_by(filters),
        }
    }

    // Whether the old filter in place j, of a bearer that stands so, remains and has a new one's precedence.
    #[tactic(auto, using(crate::proofs::Conflicts::conflict_is))]
    fn conflicts(&self, standing: Standing, j: usize, filter: &Filter) -> bool
        requires { j < place_count }
        ensures { result ≡ conflict self.now.filters.now standing.connected (old self.now.creates standing (in_row self.now.filters.now j) filter.now) }
    {
        let replaced = standing.named & (self.creates | self.filters[j].held());
        !replaced & (standing.connected & filter.held() & self.taken[filter.precedence as usize])
    }

    #[tactic(auto, using(laws::proofs::Index::any_more, laws::proofs::Index::any_start, laws::proofs::Index::done), unfolding(crate::specs::Lay::loses, crate::specs::Lay::conflict_in))]
    fn row_loses(&self, standing: Standing, row: &[Filter; PLACES]) -> bool
        ensures { result ≡ loses self.now.filters.now self.now.creates standing row.now }
    {
        let mut any = false;
        for (j, filter) in row.iter().enumerate() {
            any = any | self.conflicts(standing, j, filter);
        }
        any
    }

    // The new filter; else nothing where a create leaves nothing or at a conflict; else the old one.
    #[tactic(auto, using(table::proofs::Rows::row_turned, crate::proofs::Conflicts::placed_new, crate::proofs::Conflicts::placed_gone, crate::proofs::Conflicts::placed_old), unfolding(crate::specs::Lay::placed_in))]
    pub(crate) fn lay_row(&self, standing: Standing, row: &mut [Filter; PLACES])
        ensures { row.new ≡ tab (placed_in self.now.filters.now self.now.creates standing row.old) place_count }
    {
        for (j, place) in row.iter_mut().enumerate() {
            let new = &self.filters[j];
            if standing.named & new.held() {
                *place = *new;
            } else if (standing.named & self.creates) | self.conflicts(standing, j, place) {
                *place = Filter::bare(0, 0);
            }
        }
    }

    // For each bearer, whether it loses a filter to a conflict; the one at index `named` is named.
    #[tactic(auto, using(crate::proofs::Conflicts::mine_loses, crate::proofs::Conflicts::other_loses, laws::proofs::Index::stored_start, laws::proofs::Index::stored_more, laws::proofs::Index::stored_done))]
    pub(crate) fn losers(&self, table: &Table, named: usize, connection: u8) -> [bool; BEARERS]
        ensures { result ≡ tab (loses_at self.now.filters.now self.now.creates table.now named connection) bearer_count }
    {
        let mut losers = [false; BEARERS];
        for (i, bearer) in table.bearers.iter().enumerate() {
            losers[i] = if bearer.role.in_connection(i, connection) {
                let standing = Standing {
                    named: i == named,
                    connected: true,
                };
                self.row_loses(standing, &bearer.row)
            } else {
                false
            };
        }
        losers
    }
}

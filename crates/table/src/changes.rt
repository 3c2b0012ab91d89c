// What can be done to a table that is lent: each change is one to its bearers, and where they hold other filters for the uplink then, the list of their
// connection is made anew.
ghost use Rattle.std.specs.Prelude.{◌≡◌, true};
ghost use Rattle.laws.specs.Index.{tab};
ghost use Rattle.filter.specs.Sizes.{place_count};
ghost use Rattle.table.specs.Bearers.{connection_at};
ghost use Rattle.table.specs.Tables.{only_of, relisted_of};
ghost use Rattle.table.specs.Changes.{remade, closed_view, started_view, opened_view, of_connection, is_at, cut_view, deleted_in, deleted_view};

use crate::bearer::{BEARERS, Bearer, Role, Table};
use crate::list::only;
use filter::Filter;
use filter::component::PLACES;

impl Bearer {
    // The filters in the places that are marked go.
    #[tactic(auto, using(crate::proofs::Rows::row_turned), unfolding(crate::specs::Changes::deleted_in))]
    fn delete(&mut self, marks: &[bool; PLACES])
        ensures { self.new ≡ record { role = self.old.role; transaction = self.old.transaction; row = tab (deleted_in true marks.now self.old.row) place_count } }
    {
        for (j, place) in self.row.iter_mut().enumerate() {
            if marks[j] {
                *place = Filter::bare(0, 0);
            }
        }
    }
}

impl Table {
    // Whoever has the transaction open has none any more.
    #[tactic(auto, using(crate::proofs::Rows::closed_made))]
    pub fn close(&mut self, transaction: u8)
        ensures { self.new ≡ remade self.old (closed_view self.old transaction) }
    {
        self.typed();
        for bearer in &mut self.bearers {
            if bearer.transaction == transaction {
                bearer.transaction = 0;
            }
        }
    }

    #[tactic(auto, using(crate::proofs::Rows::started_made, crate::proofs::Rows::started_past))]
    pub fn start(&mut self, i: usize, transaction: u8)
        ensures { self.new ≡ remade self.old (started_view self.old i transaction) }
    {
        self.typed();
        if i < BEARERS {
            self.bearers[i].transaction = transaction;
        }
    }

    #[tactic(auto, using(crate::proofs::Rows::opened_made, crate::proofs::Rows::opened_past))]
    pub fn open(&mut self, i: usize, role: Role)
        ensures { self.new ≡ remade self.old (opened_view self.old i role) }
    {
        self.typed();
        if i < BEARERS {
            self.bearers[i].role = role;
        }
    }

    // The bearers of the connection go, with all they hold.
    #[tactic(auto, using(crate::proofs::Rows::cut_made))]
    pub fn drop_connection(&mut self, connection: u8)
        ensures { self.new ≡ relisted_of (remade self.old (cut_view self.old (of_connection self.old connection))) (only_of connection) }
    {
        self.typed();
        for (i, bearer) in self.bearers.iter_mut().enumerate() {
            if bearer.role.in_connection(i, connection) {
                *bearer = Bearer::idle_bearer();
            }
        }
        self.relist(&only(connection));
    }

    // The bearer goes, with all it holds.
    #[tactic(auto, using(crate::proofs::Rows::ended_made, crate::proofs::Rows::ended_past))]
    pub fn drop_bearer(&mut self, i: usize)
        ensures { self.new ≡ relisted_of (remade self.old (cut_view self.old (is_at i))) (only_of (connection_at self.old i)) }
    {
        self.typed();
        let connection = self.connection_at(i);
        if i < BEARERS {
            self.bearers[i] = Bearer::idle_bearer();
        }
        self.relist(&only(connection));
    }

    // The bearer's filters in the places that are marked go.
    #[tactic(auto, using(crate::proofs::Rows::deleted_made, crate::proofs::Rows::deleted_past))]
    pub fn delete(&mut self, i: usize, marks: &[bool; PLACES])
        ensures { self.new ≡ relisted_of (remade self.old (deleted_view self.old i marks.now)) (only_of (connection_at self.old i)) }
    {
        self.typed();
        let connection = self.connection_at(i);
        if i < BEARERS {
            self.bearers[i].delete(marks);
        }
        self.relist(&only(connection));
    }
}

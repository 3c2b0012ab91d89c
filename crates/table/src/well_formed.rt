// Whether a table is well formed.
ghost use Rattle.std.specs.Prelude.{◌≡◌, ◌<◌};
ghost use Rattle.table.specs.Bearers.{bearer_count};
ghost use Rattle.table.specs.WellFormed.{transaction_from, distinct_transactions, well_formed};

use crate::bearer::Table;
use crate::list::entries;

impl Table {
    // Whether no other bearer has the transaction of the one at index i.
    #[tactic(auto, using(laws::proofs::Index::all_more, laws::proofs::Index::all_start, laws::proofs::Index::done, crate::proofs::Walks::none_open), unfolding(crate::specs::WellFormed::transaction_from, crate::specs::WellFormed::transactions_apart))]
    fn transaction_from(&self, i: usize) -> bool
        requires { i < bearer_count }
        ensures { result ≡ transaction_from self.now i }
    {
        let transaction = self.bearers[i].transaction;
        if transaction == 0 {
            return true;
        }
        let mut all = true;
        for (k, bearer) in self.bearers.iter().enumerate() {
            all = all & (!(transaction == bearer.transaction) | (i == k));
        }
        all
    }

    #[tactic(auto, using(laws::proofs::Index::all_more, laws::proofs::Index::all_start, laws::proofs::Index::done), unfolding(crate::specs::WellFormed::distinct_transactions))]
    fn distinct_transactions(&self) -> bool
        ensures { result ≡ distinct_transactions self.now }
    {
        let mut all = true;
        // By index: a bearer is compared with every other, and not with itself.
        for i in 0..self.bearers.len() {
            all = all & self.transaction_from(i);
        }
        all
    }

    #[tactic(auto, using(crate::proofs::Tested::none_tested))]
    pub fn well_formed(&self) -> bool
        ensures { result ≡ well_formed self.now }
    {
        self.typed();
        match self.uplinks_if_fine() {
            Some(uplinks) => self.distinct_transactions() && entries(&self.lists) <= uplinks,
            None => false,
        }
    }
}

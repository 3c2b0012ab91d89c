#![tactic(auto)]
// The bearers of a module, their connections and transactions, and whether a table of them is well formed.
pub mod bearer;
pub mod changes;
pub mod list;
mod marks;
mod walk;
pub mod well_formed;

pub use bearer::{Bearer, Role, Table};
pub use list::Entry;

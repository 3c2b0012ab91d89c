#![tactic(auto)]
// The EPS bearer context status: the module's written, the network's taken.
pub mod take;
pub mod value;
pub mod write;

pub use write::StatusUnwritten;

#![tactic(auto)]
// The bearer of an uplink packet by the held list of its connection, and why it is that one.
pub mod answer;
pub mod choose;
pub mod why;

pub use answer::{Refusal, Route, Why};

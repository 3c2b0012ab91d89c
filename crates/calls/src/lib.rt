#![tactic(auto)]
// The six calls on a table of bearers: default and dedicated activation, modify, deactivate, resource modification reject, start.
pub mod activate;
pub mod deactivate;
pub mod in_place;
mod incoming;
mod lay;
pub mod modify;
pub mod reply;
mod steps;
pub mod transaction;

pub use reply::{Answer, Cause, FollowUps, Outcome, Refusal, Reply};

#![tactic(auto)]
// The plain ESM messages of bearers: read, written, and handled on a table.
pub mod handle;
pub mod layout;
mod listed;
pub mod read;
pub mod write;

pub use handle::{AnswerMessage, Answered, Handled};
pub use layout::{Fault, Kind, Message, Part};
pub use write::MessageUnwritten;

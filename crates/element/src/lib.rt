#![tactic(auto)]
// The template's bytes: the reader, also entry by entry and of portions, the writer, the component lengths, and the number of an answer.
pub mod answer;
mod contents;
pub mod entries;
mod fields;
mod framing;
pub mod head;
mod judge;
mod lengths;
mod octets;
pub mod portions;
pub mod read;
mod survey;
pub mod write;

pub use answer::{Answer, BareOperation, Cause, Element, Refusal, SetOperation};
pub use entries::{Entries, Handed};
pub use portions::{Finished, PortionRefusal, Portions, Unfinished};
pub use write::Unwritten;

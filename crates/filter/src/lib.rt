#![tactic(auto)]
// A packet filter and its components, a packet header, when the one fits the other, and whether any packet fits at all.
pub mod build;
pub mod coding;
pub mod component;
pub mod fit;
pub mod packet;
pub mod sample;

pub use component::{Address, Class, Filter, Port, RemoteAddress};
pub use packet::Header;

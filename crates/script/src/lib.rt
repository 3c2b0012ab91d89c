#![tactic(auto)]
// The bench language: lines read and taken apart, and filters and elements put into text. Of the table only roles and identities are known here.
// Each function is proved to end without a fault, and the words of kinds have contracts; nothing else is claimed.
pub mod command;
pub mod elements;
pub mod error;
pub mod filters;
pub mod kinds;
pub mod lines;
pub mod words;

// The log of document 01, "The log and `udslog`".
#![tactic(auto)]

pub mod header;
pub mod layout;
pub mod reader;
pub mod writer;

// Numbers in bytes, big-endian; and readings that come so.
#![tactic(auto)]

pub mod number;
pub mod words;

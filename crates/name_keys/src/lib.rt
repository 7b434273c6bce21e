//! Names as keys of tables by hash: each is hashed by one write of all its bytes, where a slice is by one for each byte.
//!
//! `Name` borrows its bytes, and is also what the other keys are looked up by; `OwnName` has a copy of them; `EntryName` is a name
//! in a section. Contracts see the first two as lists of bytes.
#![tactic(auto)]

mod entry_name;
mod name;
mod own_name;

pub use entry_name::EntryName;
pub use name::Name;
pub use own_name::OwnName;

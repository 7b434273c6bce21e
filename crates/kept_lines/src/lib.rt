//! Lines of a report that are kept, and that follow a change of what it reports on.
//!
//! Begin with `KeptLines::of`, which keeps the lines of a report in the order of their bytes. Before a change `reserve` makes room
//! for the lines that will come; the change itself takes no memory: `take_all` takes the lines that go, and `put_all` puts in those
//! that come. `copied` gives a report of the lines as they are. `all_merged` lends the lines of three lists in one order, and
//! `copies` gives a report of lines that are lent. Contracts see `KeptLines` as `Kept` of `specs/Kept`, the list of its texts and
//! how many it has room for. Which lines go and which come is said by `LinesFollow` of `following_laws`.
//!
//! The one error is `AllocError`, of what gives or lends a list and of `reserve`, which leaves the lines as they were.
#![tactic(auto)]

mod kept;
mod merged;

pub use kept::KeptLines;
pub use merged::{all_merged, copies};

//! Classes of parts under numbers, of which some are joined: union-find, over plain values.
//!
//! Begin with `Classes::new`, each part in a class of its own; `join` joins the classes of two parts, and `counts` says how
//! many classes hold a marked part and how many hold none. Many joins take a time that is near linear in their number, and
//! `counts` one that is linear in the number of parts.
//!
//! Contracts see `Classes` as the list of its parts' labels, a label being the least number in the part's class. What they
//! say is `joined`, `numbers`, `holding` and `bare` of `shape_rules/specs/Classes`, so parts that are joined one pair after
//! the other have the labels of `all_joined`, where the last pair comes first. Three laws say what labels mean:
//! `labels_are_classes`, `order_is_open` and `counts_are_all`; `proofs/Rows` has worked rows.
//!
//! Nothing is lent. The one error is `AllocError`, of `new` and of `counts`, which leaves the labels as they were.
#![tactic(auto)]

mod classes;
mod forest;
mod laws;

pub use classes::{Classes, Counts};
pub use laws::{counts_are_all, labels_are_classes, order_is_open};

//! Laws of texts with other bytes put in.
//!
//! Each law is an empty function that ensures it; call it to use it. `splicing` has which tokens a text has with bytes put
//! in the place of others, `keeping` that the bytes around them stay, `putting` that words with a space between each two,
//! printed numbers among them, are put as these very tokens, and `slicing` that tokens in a row are those of their bytes.
#![tactic(auto)]

pub mod keeping;
pub mod putting;
pub mod slicing;
pub mod splicing;

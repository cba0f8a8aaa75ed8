//! The tokens of a file of Zig: any bytes are either a list of tokens or one exact lexical fault.
//!
//! The model: a place is the number of the bytes before it. A text has one outcome, its tokens with
//! their spans up to the file's end, or the fault that reading from the left shows first; this is a
//! relation on the whole text (`zig_tree`, `specs/Tokens.antt`). The text of a token is the slice
//! of its span.
//! Public calls: `tokens`, one pass in time linear in the text; `one_outcome` and `some_outcome`
//! are laws without code. Inside, each module reads one kind of item, and says which function on
//! lists it computes (`specs/Scan.antt`). The crate stands on `zw_base`, `zig_tree` and `thiserror`.
#![tactic(auto)]

mod bytes;
mod fault;
mod line;
mod piece;
mod quoted;
mod scan;
mod utf8;
mod word;

pub use fault::LexFault;
pub use scan::{one_outcome, some_outcome, tokens};

#[cfg(test)]
mod tests;

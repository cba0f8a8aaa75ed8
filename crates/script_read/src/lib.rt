//! The reader of a watch session's script: commands that change files or ask for an update.
//!
//! The model: the bytes that are left mean a command and the bytes behind it, the end, or a refusal by the
//! first cause that stands, for the files' sizes, the limits and how many commands came before. The grammar
//! of a command's text and the causes in their order are properties of lists of bytes; a function on lists
//! computes the meaning. How the source cuts the bytes into reads is no part of it. After any answer but a
//! command the reader gives the same answer again and reads nothing. What a whole script does is a fold of
//! its commands over any state that has files (`specs/Fold.antt`).
//! Public calls: `ScriptReader::new`, `ScriptReader::next`, and the laws `bytes_have_one_meaning` and
//! `commands_have_their_lines`.
//! The crate stands on `zw_base` alone.
#![tactic(auto)]

mod allow;
mod command;
mod laws;
mod line;
mod reader;
mod reading;
mod steps;

pub use command::{Command, Next};
pub use laws::{bytes_have_one_meaning, commands_have_their_lines};
pub use reader::ScriptReader;
pub use zw_base::Limits;

#[cfg(test)]
mod tests;
#[cfg(test)]
mod tests_with_files;

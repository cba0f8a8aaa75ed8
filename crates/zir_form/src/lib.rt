//! The core tree of a file's text, and the names of that text.
//!
//! The model: a name is the bytes that an identifier stands for, escapes resolved; `Names` is the list of
//! each token's first token with its name, so that later layers compare numbers. The core tree
//! (`specs/Core.antt`, one form a variant of `Form`) is kept as lines: a line is a form over earlier lines,
//! and `core_at` is the tree that it stands for, so that what stands at many places is stored once. A `Zir`
//! has the lines of a file and tables of its declarations, containers and blocks; `file_in` is the file
//! that it stands for (`specs/File.antt`). A `Front` is what a file is to the layers above: its diagnostics,
//! and its core tree where its text is a sentence (`specs/Front.antt`); its answers to who asks for a part's
//! text, for a name or for what it exports have no place of the file in them.
//! Public calls: `token_bytes`, `name_of`, `Names::of`, `primitive_of`, `builtin_fn`; `Lines::put`, `Zir::of`, `Zir::part`,
//! `Zir::name_in`, `Zir::container_in`, `exports_of`, and the same of a `Front`; `Zir::part_start` and
//! `Zir::name_start` for the places of diagnostics; `quoted_value` and the calls on bytes serve the crate that
//! reads literals. The crate stands on `zw_base` and `zig_tree`.
#![tactic(auto)]

mod build;
mod builtin;
mod bytes;
mod escape;
mod exports;
mod form;
mod front;
mod laws;
mod lines;
mod name;
mod names;
mod operator;
mod primitive;
mod table;
#[cfg(test)]
mod tests;
mod zir;

pub use builtin::{Builtin, BuiltinFn, builtin_fn};
pub use bytes::{DigitRun, behind, byte_at, digits_at_front, is_within};
pub use escape::{letter_value, quoted_value};
pub use exports::{FileExports, exports_of};
pub use form::Form;
pub use front::Front;
pub use laws::{first_tokens_tell_names, lines_are_over_earlier_ones};
pub use lines::Lines;
pub use name::{name_of, token_bytes};
pub use names::Names;
pub use operator::{BinaryOperator, UnaryOperator};
pub use primitive::{Primitive, primitive_of};
pub use table::{BlockRow, ContainerRow, DeclarationRow, ImportRow};
pub use zir::{ContainerRef, NameRef, Part, PartRef, Zir};

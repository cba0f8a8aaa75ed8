//! Types and values as plain trees, their spellings, and what an interner's indices denote.
//!
//! The model: `Ty`, `Value`, `DeclPath` and `Arg` are trees; a table of keys has the list `known` of
//! pairs of index and words; `denoted` is the tree that is got from an index by following keys
//! through `known`. Clauses say it by `IsTy`, `ty_at`, `DenotesTy` and their kin, and by `Grows`,
//! that a list of pairs grew and all that was denoted stays.
//! Public calls: the traits `Keys` and `Interner`, `spell_unit`, `spelled_len`, `unit_len`, the
//! types of keys (`Key`, `KeyBuf`, `Few`, `Index`) and of fields (`FieldTable`), and `laws`.
//! The crate stands on `zw_base`, `zw_bytes` and the kit's `sqlite_items`.
#![tactic(auto)]

mod index;
mod key;
pub mod laws;
mod measure;
mod pool;
mod roles;
mod spell;
mod spelling;
mod table;
#[cfg(test)]
mod tests;
mod text;
mod tree;
mod unit;

pub use index::Index;
pub use key::{Few, Key, KeyBuf};
pub use measure::spelled_len;
pub use pool::{InternFault, Interner, Keys};
pub use roles::{Role, role_of};
pub use spelling::{SpellFault, spell_unit, unit_len};
pub use table::{ContainerKind, Field, FieldTable, Fields, FieldsOf, FieldsResult, Member};
pub use tree::{Arg, DeclPath, SimpleTy, SimpleValue, Ty, Value};
pub use unit::{Instance, Unit};

// One call for each kind of key, which says what the index that it answers denotes.
pub mod decls;
pub mod types;
pub mod values;

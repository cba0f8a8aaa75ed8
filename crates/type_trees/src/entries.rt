// Which entry of a table of containers is taken.
ghost use Rattle.std.specs.Prelude.{ℕ, IfSome, IfNone};
ghost use Rattle.type_trees.specs.Entries.{IsEntry, IsFirst};

use crate::same::same_ty;
use type_form::{FieldsOf, Ty};

/// The place of the first entry of a container, and None exactly where it has none. Compares with
/// one entry after the other; takes no memory.
pub fn first_entry(entries: &[FieldsOf], container: &Ty) -> Option<usize>
    ensures found { IfSome result (IsFirst entries.now container.now) }
    ensures absent { IfNone result ((at : ℕ) → IsEntry entries.now container.now at → ⊥) }
{
    for (at, entry) in entries.iter().enumerate() {
        if same_ty(&entry.container, container) {
            return Some(at);
        }
    }
    None
}

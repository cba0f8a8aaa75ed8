// What the words of a key are: numbers, or indices of what.
ghost use Rattle.std.specs.Prelude.{◌≡◌};
ghost use Rattle.type_form.specs.Roles.{roles_of, role_at};

use Role::{List, Number, Part, Rest};

/// What a word of a key is, behind the number of the key's kind.
#[derive(Clone, Copy, Debug, PartialEq, Eq)]
pub enum Role {
    /// A number as such.
    Number,
    /// The index of a type, a value, a declaration, an instance or a list of numbers.
    Part,
    /// The index of a list of such indices.
    List,
    /// The index of the rest of this very list.
    Rest,
}

/// What the words of a key are that is no list.
fn roles_of(kind: u64) -> [Role; 4]
    ensures { result ≡ roles_of kind }
{
    match kind {
        3 => [List, Number, Number, Number],
        4 => [Number, Part, Number, Number],
        5 => [Number, Part, Number, Number],
        6 => [Number, Part, Number, Number],
        8 => [Part, Number, Number, Number],
        9 => [Part, Part, Number, Number],
        10 => [Part, Number, Number, Number],
        11 => [Part, Number, List, Number],
        12 => [List, Part, Number, Number],
        13 => [Part, Number, Number, Number],
        14 => [Part, Number, Number, Number],
        15 => [Part, Number, Number, Number],
        16 => [Part, Part, Number, Number],
        17 => [Part, Part, Number, Number],
        18 => [Part, Part, Number, Number],
        19 => [Part, Part, Number, Number],
        20 => [Part, List, Number, Number],
        21 => [Part, Part, Number, Number],
        22 => [Part, Part, Part, Number],
        23 => [Part, Number, Number, Number],
        24 => [Part, Number, Number, Number],
        25 => [Part, Part, Number, Number],
        26 => [Part, Part, Number, Number],
        27 => [Part, Number, Number, Number],
        28 => [Part, Part, Number, Number],
        29 => [Part, Part, Number, Number],
        30 => [Part, Part, Number, Number],
        31 => [Part, Number, Number, Number],
        32 => [Part, Number, Number, Number],
        33 => [Part, Part, Number, Number],
        34 => [Part, Number, Number, Number],
        35 => [Part, List, Number, Number],
        _ => [Number, Number, Number, Number],
    }
}

/// What a word of a key is, by its place behind the kind. The numbers of a list are indices where
/// it is one of parts.
#[tactic(auto, unfolding(crate::specs::Roles::role_at))]
pub fn role_of(kind: u64, of_parts: bool, at: usize) -> Role
    ensures { result ≡ role_at kind of_parts at }
{
    if kind < 36 {
        let roles = roles_of(kind);
        if at < 4 { roles[at] } else { Number }
    } else if kind == 37 && at == 0 {
        Rest
    } else if of_parts {
        Part
    } else {
        Number
    }
}

// The builtins of the language, by their names.
ghost use Rattle.std.specs.Prelude.{◌≡◌};
ghost use Rattle.zir_form.specs.Builtins as spec;

/// A function that the language gives (Zig Language Reference 0.14, "Builtin Functions").
#[derive(Clone, Copy, Debug, PartialEq, Eq)]
pub enum Builtin {
    /// `@import`
    Import,
    /// `@This`
    This,
    /// `@TypeOf`
    TypeOf,
    /// `@as`
    As,
    /// `@sizeOf`
    SizeOf,
    /// `@alignOf`
    AlignOf,
    /// `@bitSizeOf`
    BitSizeOf,
    /// `@hasDecl`
    HasDecl,
    /// `@hasField`
    HasField,
    /// `@field`
    Field,
    /// `@compileError`
    CompileError,
    /// `@setEvalBranchQuota`
    SetEvalBranchQuota,
    /// `@panic`
    Panic,
    /// `@trap`
    Trap,
    /// `@intFromBool`
    IntFromBool,
    /// `@intFromEnum`
    IntFromEnum,
    /// `@divTrunc`
    DivTrunc,
    /// `@divFloor`
    DivFloor,
    /// `@rem`
    Rem,
    /// `@mod`
    Mod,
    /// `@min`
    Min,
    /// `@max`
    Max,
    /// `@clz`
    Clz,
    /// `@ctz`
    Ctz,
    /// `@popCount`
    PopCount,
    /// `@intCast`
    IntCast,
    /// `@truncate`
    Truncate,
    /// `@bitCast`
    BitCast,
    /// `@enumFromInt`
    EnumFromInt,
}

/// A builtin, and how many arguments it takes.
#[derive(Clone, Copy, Debug, PartialEq, Eq)]
pub struct BuiltinFn {
    pub builtin: Builtin,
    pub parameters: u32,
}

/// A row: the name, the builtin, and the number of its arguments.
type Row = (&'static str, Builtin, u32);

/// The builtins.
const BUILTINS: [Row; 29] = [
    ("@import", Builtin::Import, 1),
    ("@This", Builtin::This, 0),
    ("@TypeOf", Builtin::TypeOf, 1),
    ("@as", Builtin::As, 2),
    ("@sizeOf", Builtin::SizeOf, 1),
    ("@alignOf", Builtin::AlignOf, 1),
    ("@bitSizeOf", Builtin::BitSizeOf, 1),
    ("@hasDecl", Builtin::HasDecl, 2),
    ("@hasField", Builtin::HasField, 2),
    ("@field", Builtin::Field, 2),
    ("@compileError", Builtin::CompileError, 1),
    ("@setEvalBranchQuota", Builtin::SetEvalBranchQuota, 1),
    ("@panic", Builtin::Panic, 1),
    ("@trap", Builtin::Trap, 0),
    ("@intFromBool", Builtin::IntFromBool, 1),
    ("@intFromEnum", Builtin::IntFromEnum, 1),
    ("@divTrunc", Builtin::DivTrunc, 2),
    ("@divFloor", Builtin::DivFloor, 2),
    ("@rem", Builtin::Rem, 2),
    ("@mod", Builtin::Mod, 2),
    ("@min", Builtin::Min, 2),
    ("@max", Builtin::Max, 2),
    ("@clz", Builtin::Clz, 1),
    ("@ctz", Builtin::Ctz, 1),
    ("@popCount", Builtin::PopCount, 1),
    ("@intCast", Builtin::IntCast, 1),
    ("@truncate", Builtin::Truncate, 1),
    ("@bitCast", Builtin::BitCast, 1),
    ("@enumFromInt", Builtin::EnumFromInt, 1),
];

/// The builtin that the row of a name has.
#[tactic(auto, unfolding(crate::specs::Builtins::found_in))]
fn found_in(rows: &[Row], name: &[u8]) -> Option<BuiltinFn>
    ensures { result ≡ spec.found_in (spec.written rows.now) name.now }
{
    let mut rest = rows;
    while let [row, more @ ..] = rest {
        if row.0.as_bytes() == name {
            return Some(BuiltinFn {
                builtin: row.1,
                parameters: row.2,
            });
        }
        rest = more;
    }
    None
}

/// The builtin of this name, which begins with `@`, if there is one.
#[tactic(auto, unfolding(crate::specs::Builtins::builtin_fn))]
pub fn builtin_fn(name: &[u8]) -> Option<BuiltinFn>
    ensures { result ≡ spec.builtin_fn name.now }
{
    found_in(&BUILTINS, name)
}

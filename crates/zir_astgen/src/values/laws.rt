// Laws of the definitions: the contracts of functions that do nothing.
ghost use Rattle.std.specs.Prelude.{◌≡◌, ◌+◌, ◌-◌, ℕ, List, slice_range};
ghost use Rattle.zig_tree.specs.TokenNumbers.{IsInteger};
ghost use Rattle.zig_tree.specs.Tokens.{IsLiteral, IsString, IsLines};
ghost use Rattle.zir_astgen.specs.Numbers.{number_in, int_value, char_value};
ghost use Rattle.zir_astgen.specs.TokenValues.{CharHolds, StringHolds, LinesHold};
ghost use Rattle.zir_astgen.specs.Values.{string_value, multiline_value};

/// The value of what is written as a whole number is its number: none ends at the largest one.
pub fn integers_are_whole()
    ensures { (word : List ℕ) → IsInteger word → int_value word ≡ number_in word }
{}

/// The code point of a character literal, as a text has it from one place to before another, is that
/// of what stands between its quotes.
pub fn characters_are_read()
    ensures { (text : List ℕ) (a b : ℕ) → IsLiteral text a b → CharHolds text (a + 1) (b - 1) (char_value (slice_range text a b)) }
{}

/// The value of a string on one line is what stands between its quotes.
pub fn strings_are_read()
    ensures { (text : List ℕ) (a b : ℕ) → IsString text a b → StringHolds text (a + 1) (b - 1) (string_value (slice_range text a b)) }
{}

/// The value of a string of several lines is what its lines hold.
pub fn lines_are_joined()
    ensures { (text : List ℕ) (a b : ℕ) → IsLines text a b → LinesHold text (a + 2) b (multiline_value (slice_range text a b)) }
{}

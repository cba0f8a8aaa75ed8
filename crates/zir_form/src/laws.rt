// Laws of the definitions: contracts of functions that do nothing.
ghost use Rattle.std.specs.Prelude.{◌≡◌, ◌↔◌, ℕ, ◌<◌, List, [], ◌∷◌, ◌++◌, length, take, Option, Some, slice_index_or, slice_get};
ghost use Rattle.zir_form.specs.declared.form.Form.{Form};
ghost use Rattle.zir_form.specs.Lines.{core_at, form_tree, over_cores, tree_at, trees_of};
ghost use Rattle.zig_tree.specs.declared.token.Token.{Token};
ghost use Rattle.zig_tree.specs.declared.token.TokenKind.TheVariants.{Identifier};
ghost use Rattle.zir_form.specs.Names.{name_of, first_name, first_names};

/// Two identifiers of a text have the same first token exactly where they have the same name, and
/// the list of all first tokens has that of each token. The first token of a token of the list is one
/// of the list.
pub fn first_tokens_tell_names()
    ensures same { (text : List ℕ) (tokens : List Token) (i j : ℕ) (a b : Token) → slice_get tokens i ≡ Some a → slice_get tokens j ≡ Some b → a.kind ≡ Identifier → b.kind ≡ Identifier → (first_name text tokens i ≡ first_name text tokens j) ↔ (name_of text a ≡ name_of text b) }
    ensures each { (text : List ℕ) (tokens : List Token) (i : ℕ) → slice_index_or (first_names text tokens) i i ≡ first_name text tokens i }
    ensures within { (text : List ℕ) (tokens : List Token) (i : ℕ) → i < length tokens → first_name text tokens i < length tokens }
{}

/// The tree of a line is its form over the trees of the lines before it, and a line more changes no
/// tree that is there.
#[tactic(auto, using(crate::proofs::LineLemmas::put_line, crate::proofs::LineLemmas::lines_length, crate::proofs::LineLemmas::line_tree))]
pub fn lines_are_over_earlier_ones()
    ensures put { (lines : List Form) (f : Form) → trees_of (lines ++ f ∷ []) ≡ trees_of lines ++ over_cores (tree_at (trees_of lines)) f ∷ [] }
    ensures length { (lines : List Form) → length (trees_of lines) ≡ length lines }
    ensures line { (lines : List Form) (n : ℕ) (r : Option Form) → slice_get lines n ≡ r → core_at lines n ≡ form_tree (tree_at (take n (trees_of lines))) r }
{}

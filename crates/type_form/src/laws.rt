// Laws of the definitions: each is the contract of a function that does nothing.
ghost use Rattle.std.specs.Prelude.{◌≡◌, ◌↔◌, ℕ, List, Some, option_and_then};
ghost use Rattle.type_form.specs.declared.index.Index.{Index};
ghost use Rattle.type_form.specs.declared.key.Key.{Key};
ghost use Rattle.type_form.specs.Known.{Known, key_at, IsInjective, Keeps};
ghost use Rattle.type_form.specs.Words.{words_of, key_of, Fits};
ghost use Rattle.type_form.specs.Denote.{denoted, node_of};
ghost use Rattle.type_form.specs.Means.{Grows, IsTy, ty_at, IsValue, value_at, IsDecl, decl_at, IsInstance, instance_at, IsList, list_at};
ghost use Rattle.type_form.specs.Parts.{PartsDenote, PartsTurn};

/// Words and keys are inverse: a key that fits its words is read from them, and only a key that
/// has the words is read from words. So two keys with the same words are one key.
pub fn words_are_keys()
    ensures read { (k : Key) → Fits k → key_of (words_of k) ≡ Some k }
    ensures written { (ws : List ℕ) (k : Key) → key_of ws ≡ Some k → words_of k ≡ ws }
    ensures one { (k l : Key) → Fits k → Fits l → words_of k ≡ words_of l → k ≡ l }
{}

/// What an index denotes is its key with what the parts denote, also where keys lead back to
/// themselves; and it stays where every pair of index and key is kept.
pub fn keys_denote()
    ensures layer { (k : Known) (i : Index) → denoted k i ≡ option_and_then (node_of (denoted k)) (key_at k i) }
    ensures stays { (k l : Known) → Keeps k l → (IsInjective k → IsInjective l) → Grows k l }
{}

/// In one table two indices are equal exactly where they denote the same.
pub fn equal_trees_have_one_index()
    ensures ty { (k : Known) (i j : Index) → IsInjective k → IsTy k i → IsTy k j → (ty_at k i ≡ ty_at k j) ↔ (i ≡ j) }
    ensures value { (k : Known) (i j : Index) → IsInjective k → IsValue k i → IsValue k j → (value_at k i ≡ value_at k j) ↔ (i ≡ j) }
    ensures decl { (k : Known) (i j : Index) → IsInjective k → IsDecl k i → IsDecl k j → (decl_at k i ≡ decl_at k j) ↔ (i ≡ j) }
    ensures instance { (k : Known) (i j : Index) → IsInjective k → IsInstance k i → IsInstance k j → (instance_at k i ≡ instance_at k j) ↔ (i ≡ j) }
    ensures list { (k : Known) (i j : Index) → IsInjective k → IsList k i → IsList k j → (list_at k i ≡ list_at k j) ↔ (i ≡ j) }
{}

/// Which words of a key are indices, and of what, is what counts for what the key denotes.
pub fn roles_are_parts()
    ensures denote { PartsDenote }
    ensures turn { PartsTurn }
{}

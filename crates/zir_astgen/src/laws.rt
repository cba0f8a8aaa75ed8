// Laws of the definitions: contracts of functions that do nothing.
ghost use Rattle.std.specs.Prelude.{◌≡◌, ◌+◌, ℕ, Bool, true, false, List, [], ◌∷◌, Option, Some};
ghost use Rattle.zir_form.specs.Core.{Core, absent, runs};
ghost use Rattle.zir_astgen.specs.Levels.{Level, exit_from, level, put_off, return_from};
ghost use Rattle.zir_astgen.specs.declared.stage.Layer.{Layer};
ghost use Rattle.zir_astgen.specs.declared.stage.Layer.TheVariants as layer;
ghost use Rattle.zir_astgen.specs.Files.{core_of, start_of};
ghost use Rattle.zir_astgen.specs.Outline.{own_containers, own_locals};
ghost use Rattle.zir_astgen.specs.Parts.{lead_of};
ghost use Rattle.zir_astgen.specs.Site.{File, Site, offset};
ghost use Rattle.zir_astgen.specs.Statements.{container_at};
ghost use Rattle.zir_astgen.specs.Trees.{apart};
ghost use Rattle.zig_tree.specs.declared.grammar.Rule.TheVariants as rule;
ghost use Rattle.zir_scope.specs.Syntax.{Syntax, node, nothing};

/// A file that holds nothing declares nothing.
#[tactic(auto, unfolding(crate::specs::Calls::calls_in, crate::specs::Files::core_of, crate::specs::Files::imports_of, crate::specs::Files::declarations_of, crate::specs::Files::containers_of, crate::specs::Files::blocks_of, crate::specs::Outline::entries))]
pub fn nothing_declares_nothing()
    ensures { (f : File) → core_of f nothing ≡ record { declarations = []; containers = []; blocks = []; imports = [] } }
{}

/// What was put off last runs first. What an `errdefer` puts off runs neither at the end of a block nor
/// at a `break`, a `continue` or a `return` without a value; where a `return` has a value, or a `try`
/// returns, it stands before what was put off earlier.
#[tactic(auto, using(crate::proofs::LevelLaws::level_laws))]
pub fn what_is_put_off_runs_backwards()
    ensures order { (first second : Core) (l : Layer) → (put_off true second (put_off true first (level l))).defers ≡ runs second (runs first absent) }
    ensures end { (run : Core) (l : Level) → (put_off false run l).defers ≡ l.defers }
    ensures leaving { (on : Bool) (label : Option ℕ) (run : Core) (l : Level) (outer : List Level) → exit_from on label (put_off false run l ∷ outer) ≡ exit_from on label (l ∷ outer) }
    ensures plain { (run : Core) (l : Level) (outer : List Level) → return_from false (put_off false run l ∷ outer) ≡ return_from false (l ∷ outer) }
    ensures error { (run : Core) (outer : List Level) (before : Core) (more : List Core) → return_from true outer ≡ Some more → return_from true ((record { layer = layer.Block; defers = absent; all = runs run before }) ∷ outer) ≡ Some (runs run before ∷ more) }
{}

/// A place is counted from the first token of its part: where all tokens stand later by the same number of
/// bytes, as below a new line of comment, no place of the part's tree moves.
#[tactic(auto, using(crate::proofs::PartLaws::part_laws))]
pub fn places_count_from_the_first_token()
    ensures { (f g : File) (s : Site) (n t : ℕ) → start_of g t ≡ start_of f t + n → offset g (record s { origin = s.origin + n }) t ≡ offset f s t }
{}

/// What a container holds is in parts of its own: to the part around it counts where it begins, which
/// container of the declaration it is, and what it captures; its names are no locals of that part.
#[tactic(auto, using(crate::proofs::PartLaws::part_laws))]
pub fn what_a_container_holds_is_apart()
    ensures tree { (f : File) (s : Site) (inside : Syntax) → apart f s rule.Container inside ≡ container_at f s (lead_of inside) }
    ensures locals { (inside more : Syntax) → own_locals (node rule.Container inside more) ≡ own_locals more }
    ensures containers { (inside more : Syntax) → own_containers (node rule.Declaration inside more) ≡ own_containers more }
{}

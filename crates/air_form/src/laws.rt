// Laws of the definitions: contracts of functions that do nothing.
ghost use Rattle.std.specs.Prelude.{◌≡◌, ◌<◌, List, [], ◌∷◌, ◌++◌, length, All, Some, slice_get};
ghost use Rattle.type_form.specs.Known.{Known};
ghost use Rattle.type_form.specs.Means.{Grows};
ghost use Rattle.air_form.specs.declared.node.AirRef.{AirRef};
ghost use Rattle.air_form.specs.declared.node.AirNode.{AirNode};
ghost use Rattle.air_form.specs.Nodes.{AreBelow, AreEarlier, BodyState, IsNode, refs_of};
ghost use Rattle.air_form.specs.Denote.{IsBody, air_at, body_at, list_of, over_nodes};

/// A node that is put behind others stands for its form over what these stand for, and changes
/// nothing that they stand for, alone or as a list of statements. So each node stands for its form
/// over what the nodes that it refers to stand for.
#[tactic(auto, using(crate::proofs::Trees::kept, crate::proofs::Trees::kept_list, crate::proofs::Trees::put, crate::proofs::Trees::node_tree))]
pub fn pushing_keeps_what_stands()
    ensures kept { (k : Known) (nodes : List AirNode) (n : AirNode) (r : AirRef) → r.0 < length nodes
        → air_at k (nodes ++ n ∷ []) r ≡ air_at k nodes r }
    ensures list { (k : Known) (nodes : List AirNode) (n : AirNode) (rs : List AirRef) → AreBelow (length nodes) rs
        → list_of (air_at k (nodes ++ n ∷ [])) rs ≡ list_of (air_at k nodes) rs }
    ensures put { (k : Known) (nodes : List AirNode) (n : AirNode) (r : AirRef) → r.0 ≡ length nodes
        → air_at k (nodes ++ n ∷ []) r ≡ over_nodes k (air_at k nodes) n }
    ensures node { (k : Known) (nodes : List AirNode) (r : AirRef) (n : AirNode) → AreEarlier nodes
        → slice_get nodes r.0 ≡ Some n → air_at k nodes r ≡ over_nodes k (air_at k nodes) n }
{}

/// What nodes and bodies stand for stays as an interner comes to know more.
#[tactic(auto, using(crate::proofs::Trees::nodes_growing))]
pub fn growing_keeps_bodies()
    ensures nodes { (k l : Known) (nodes : List AirNode) → Grows k l → All (IsNode k) nodes → All (IsNode l) nodes }
    ensures trees { (k l : Known) (nodes : List AirNode) (r : AirRef) → Grows k l → All (IsNode k) nodes
        → air_at l nodes r ≡ air_at k nodes r }
    ensures bodies { (k l : Known) (b : BodyState) → Grows k l → IsBody k b → IsBody l b }
    ensures typed { (k l : Known) (b : BodyState) → Grows k l → IsBody k b → body_at l b ≡ body_at k b }
{}

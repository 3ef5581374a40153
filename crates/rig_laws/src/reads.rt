//! What holds of the reads of a scene: they fall in rank, make no cycle where they are kept, and stay within the scene.
ghost use Rattle.std.specs.Prelude.{◌≡◌, ◌↔◌, ◌<◌, ◌∷◌, ◌++◌, List, IsTrue, IsFalse, Contains};
ghost use Rattle.rig_cycles.specs.Cut.{Arrow};
ghost use Rattle.rig_cycles.specs.Pair.{is_cut_at};
ghost use Rattle.rig_cycles.specs.Walk.{IsAcyclic};
ghost use Rattle.rig_scene.specs.declared.quantity.Quantity.{Quantity};
ghost use Rattle.rig_scene.specs.declared.quantity.Read.{Read};
ghost use Rattle.rig_scene.specs.Cut.{inner_arrows, reference_arrows, is_cut};
ghost use Rattle.rig_scene.specs.Quantities.{same_quantity, quantities, reads};
ghost use Rattle.rig_scene.specs.Scene.{SceneRecord};
ghost use Rattle.rig_scene.specs.WellFormed.{is_scene};
ghost use Rattle.rig_laws.specs.Kept.{arrow_of, kept_arrows};
ghost use Rattle.rig_laws.specs.Members.{has_quantity, IsReadOf};
ghost use Rattle.rig_laws.specs.Rank.{rank};

/// An inner read falls in rank: that of its source is below that of its reader.
pub fn inner_reads_fall_in_rank()
    ensures { (s : SceneRecord) → IsTrue (is_scene s) → (q : Quantity) (r : Read) → Contains (reads s q) r →
        IsFalse r.reference → rank r.source < rank q }
{}

/// Inner reads make no cycle, and neither do all that are kept.
pub fn kept_reads_make_no_cycle()
    ensures inner { (s : SceneRecord) → IsTrue (is_scene s) → IsAcyclic (inner_arrows s) }
    ensures kept { (s : SceneRecord) → IsTrue (is_scene s) → IsAcyclic (kept_arrows s) }
{}

/// Reads of one source by one reader are both cut or both kept, so that a read is told by its source and reader: it is kept
/// exactly where they aren't among the cuts, which is also what the test of a reference read finds. An inner read is never
/// cut.
pub fn reads_of_one_pair_are_cut_alike()
    ensures both { (s : SceneRecord) → IsTrue (is_scene s) → (q : Quantity) (r t : Read) → IsReadOf s q r → IsReadOf s q t →
        r.source ≡ t.source → Contains (kept_arrows s) (arrow_of q r) ↔ Contains (kept_arrows s) (arrow_of q t) }
    ensures kept { (s : SceneRecord) → IsTrue (is_scene s) → (q : Quantity) (r : Read) → IsReadOf s q r →
        Contains (kept_arrows s) (arrow_of q r) ↔ IsFalse (is_cut s r.source q) }
    ensures at_its_test { (s : SceneRecord) → IsTrue (is_scene s) → (before after : List (Arrow Quantity)) (a : Arrow Quantity) →
        reference_arrows s ≡ before ++ a ∷ after →
        is_cut_at same_quantity (inner_arrows s) before a ≡ is_cut s a.source a.reader }
    ensures inner { (s : SceneRecord) → IsTrue (is_scene s) → (q : Quantity) (r : Read) → IsReadOf s q r →
        IsFalse r.reference → IsFalse (is_cut s r.source q) }
{}

/// A quantity is one of a scene exactly where the scene has what the quantity names.
pub fn quantities_are_what_a_scene_has()
    ensures { (s : SceneRecord) → IsTrue (is_scene s) → (q : Quantity) → Contains (quantities s) q ↔ IsTrue (has_quantity s q) }
{}

/// What a quantity of a scene reads is a quantity of the scene.
pub fn quantities_read_quantities()
    ensures { (s : SceneRecord) → IsTrue (is_scene s) → (q : Quantity) (r : Read) → IsReadOf s q r → Contains (quantities s) r.source }
{}

//! Each quantity and each operation of a scene stands once.
ghost use Rattle.std.specs.Prelude.{◌≡◌, ◌≢◌, Bool, true, IsTrue};
ghost use Rattle.std.specs.List.{AllPairs, IsDistinct};
ghost use Rattle.rig_scene.specs.declared.operation.OpId.{OpId};
ghost use Rattle.rig_scene.specs.declared.quantity.Quantity.{Quantity};
ghost use Rattle.rig_scene.specs.Scene.{SceneRecord};
ghost use Rattle.rig_scene.specs.WellFormed.{is_scene};
ghost use Rattle.rig_scene.specs.Quantities.{quantities};
ghost use Rattle.rig_scene.specs.Operations.{operations};

/// No quantity of a scene stands twice in its list, so that they can be the keys of a map, under any test of equality.
pub fn quantities_are_distinct()
    ensures pairs { (s : SceneRecord) → IsTrue (is_scene s) → AllPairs (λ q r. q ≢ r) (quantities s) }
    ensures keys { (s : SceneRecord) → IsTrue (is_scene s)
        → (same : Quantity → Quantity → Bool) → ((q r : Quantity) → same q r ≡ true → q ≡ r) → IsDistinct same (quantities s) }
{}

/// No operation of a scene stands twice in its list, likewise.
pub fn operations_are_distinct()
    ensures pairs { (s : SceneRecord) → IsTrue (is_scene s) → AllPairs (λ a b. a ≢ b) (operations s) }
    ensures keys { (s : SceneRecord) → IsTrue (is_scene s)
        → (same : OpId → OpId → Bool) → ((a b : OpId) → same a b ≡ true → a ≡ b) → IsDistinct same (operations s) }
{}

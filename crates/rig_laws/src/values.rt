//! What holds of the values of a scene: each looks at what its quantity reads, and follows from it with no depth.
ghost use Rattle.std.specs.Prelude.{◌≡◌, ◌≤◌, ℕ, ℤ, length, Bool, IsTrue, Contains};
ghost use Rattle.rig_scene.specs.declared.modifier.Mode.{Mode};
ghost use Rattle.rig_scene.specs.declared.quantity.Quantity.{Quantity};
ghost use Rattle.rig_scene.specs.Cut.{cuts, is_among};
ghost use Rattle.rig_scene.specs.Quantities.{quantities, reads};
ghost use Rattle.rig_scene.specs.Scene.{SceneRecord};
ghost use Rattle.rig_scene.specs.Value.{Value, FrameInputs, value_from, value_at, val};
ghost use Rattle.rig_scene.specs.WellFormed.{is_scene};
ghost use Rattle.rig_laws.specs.ValueOver.{AgreeOn, AreValuesOf};

/// A quantity's value looks only at the values of what the quantity reads, and at what the frame decides.
pub fn values_look_at_what_is_read()
    ensures { (s : SceneRecord) (mode : Mode) (inputs : FrameInputs) (cut : Quantity → Bool) (get other : Quantity → Value) (q : Quantity) →
        AgreeOn get other (reads s q) → value_from s mode inputs cut get q ≡ value_from s mode inputs cut other q }
{}

/// Each quantity of a scene has a value, which is that of its kind over the values of its kept sources and the rests of
/// its cut ones. No other values follow from their sources so. A greater depth gives the same ones.
pub fn values_follow_from_their_sources()
    ensures follow { (s : SceneRecord) → IsTrue (is_scene s) → (mode : Mode) (frame : ℤ) → AreValuesOf s mode frame (val s mode frame) }
    ensures alone { (s : SceneRecord) → IsTrue (is_scene s) → (mode : Mode) (frame : ℤ) (values : Quantity → Value) →
        AreValuesOf s mode frame values → (q : Quantity) → Contains (quantities s) q → values q ≡ val s mode frame q }
    ensures at_each_depth { (s : SceneRecord) → IsTrue (is_scene s) → (mode : Mode) (frame : ℤ) (depth : ℕ) →
        length (quantities s) ≤ depth → (q : Quantity) → Contains (quantities s) q →
        value_at (is_among (cuts s)) s mode frame depth q ≡ val s mode frame q }
{}

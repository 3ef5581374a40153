//! What the tests of the definitions mean: what is the same is equal.
ghost use Rattle.std.specs.Prelude.{◌≡◌, ◌↔◌, ℕ, List, IsTrue};
ghost use Rattle.rig_scene.specs.declared.channel.Axis.{Axis};
ghost use Rattle.rig_scene.specs.declared.channel.Channel.{Channel};
ghost use Rattle.rig_scene.specs.declared.id.AnimId.{AnimId};
ghost use Rattle.rig_scene.specs.declared.id.ObjectId.{ObjectId};
ghost use Rattle.rig_scene.specs.declared.path.Path.{Path};
ghost use Rattle.rig_scene.specs.declared.quantity.Quantity.{Quantity};
ghost use Rattle.rig_scene.specs.Channel.{same_channel, same_axis};
ghost use Rattle.rig_scene.specs.Id.{same_object, same_id};
ghost use Rattle.rig_scene.specs.Path.{same_path};
ghost use Rattle.rig_scene.specs.Quantities.{same_quantity};
ghost use Rattle.rig_scene.specs.Text.{same_text};

/// Texts, channels, axes, ids, paths and quantities are the same exactly where they are equal.
pub fn the_same_are_equal()
    ensures texts { (a b : List ℕ) → (IsTrue (same_text a b) ↔ (a ≡ b)) }
    ensures channels { (a b : Channel) → (IsTrue (same_channel a b) ↔ (a ≡ b)) }
    ensures axes { (a b : Axis) → (IsTrue (same_axis a b) ↔ (a ≡ b)) }
    ensures objects { (a b : ObjectId) → (IsTrue (same_object a b) ↔ (a ≡ b)) }
    ensures ids { (a b : AnimId) → (IsTrue (same_id a b) ↔ (a ≡ b)) }
    ensures paths { (a b : Path) → (IsTrue (same_path a b) ↔ (a ≡ b)) }
    ensures quantities { (a b : Quantity) → (IsTrue (same_quantity a b) ↔ (a ≡ b)) }
{}

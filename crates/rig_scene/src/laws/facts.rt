//! What a scene promises of its records, each condition under a name.
ghost use Rattle.std.specs.Prelude.{◌≡◌, ◌↔◌, ◌<◌, ℕ, Some, false, filter, length, slice_get, sum_by, IsTrue};
ghost use Rattle.rig_scene.specs.declared.armature.ArmatureData.{ArmatureData};
ghost use Rattle.rig_scene.specs.declared.limits.TheConstants.{MAX_OBJECTS, MAX_PENCIL_OBJECTS, MAX_ACTIONS, MAX_CURVES, MAX_KEYS, MAX_ARMATURES, MAX_BONES};
ghost use Rattle.rig_scene.specs.declared.limits.TheConstants.{MAX_POSE_BONES, MAX_PENCILS, MAX_LAYER_KEYS, MAX_DRAWINGS, MAX_POINTS, MAX_DRIVERS};
ghost use Rattle.rig_scene.specs.Scene.{SceneRecord};
ghost use Rattle.rig_scene.specs.WellFormed.{is_scene, curve_count, key_count, drawing_count, point_count, layer_key_count, is_pencil_kind, pose_count};
ghost use Rattle.rig_scene.specs.Facts.{SceneFacts, ActionsFacts, ArmaturesFacts, PencilsFacts, ObjectsFacts, DriversFacts};

/// What the test of a whole scene says of the scene's records. The fields of `ActionsFacts` and of the others are the
/// conditions; the records of one kind have theirs under `each`. The facts together are all that the test asks.
pub fn scenes_keep_their_promises()
    ensures actions { (s : SceneRecord) → IsTrue (is_scene s) → ActionsFacts s }
    ensures armatures { (s : SceneRecord) → IsTrue (is_scene s) → ArmaturesFacts s }
    ensures pencils { (s : SceneRecord) → IsTrue (is_scene s) → PencilsFacts s }
    ensures objects { (s : SceneRecord) → IsTrue (is_scene s) → ObjectsFacts s }
    ensures drivers { (s : SceneRecord) → IsTrue (is_scene s) → DriversFacts s }
    ensures exactly { (s : SceneRecord) → IsTrue (is_scene s) ↔ SceneFacts s }
{}

/// What has more records than a scene may have is no scene.
pub fn scenes_keep_their_limits()
    ensures actions { (s : SceneRecord) → MAX_ACTIONS < length s.actions → is_scene s ≡ false }
    ensures curves { (s : SceneRecord) → MAX_CURVES < curve_count s.actions → is_scene s ≡ false }
    ensures keys { (s : SceneRecord) → MAX_KEYS < key_count s.actions → is_scene s ≡ false }
    ensures armatures { (s : SceneRecord) → MAX_ARMATURES < length s.armatures → is_scene s ≡ false }
    ensures bones { (s : SceneRecord) → (i : ℕ) → (a : ArmatureData) → slice_get s.armatures i ≡ Some a → MAX_BONES < length a.bones
        → is_scene s ≡ false }
    ensures pencils { (s : SceneRecord) → MAX_PENCILS < length s.pencils → is_scene s ≡ false }
    ensures drawings { (s : SceneRecord) → MAX_DRAWINGS < drawing_count s.pencils → is_scene s ≡ false }
    ensures points { (s : SceneRecord) → MAX_POINTS < point_count s.pencils → is_scene s ≡ false }
    ensures layer_keys { (s : SceneRecord) → MAX_LAYER_KEYS < layer_key_count s.pencils → is_scene s ≡ false }
    ensures objects { (s : SceneRecord) → MAX_OBJECTS < length s.objects → is_scene s ≡ false }
    ensures pencil_objects { (s : SceneRecord) → MAX_PENCIL_OBJECTS < length (filter (λ o. is_pencil_kind o.kind) s.objects)
        → is_scene s ≡ false }
    ensures pose_bones { (s : SceneRecord) → MAX_POSE_BONES < sum_by (λ o. pose_count o.kind) s.objects → is_scene s ≡ false }
    ensures drivers { (s : SceneRecord) → MAX_DRIVERS < length s.drivers → is_scene s ≡ false }
{}

//! A scene for each condition that it misses, beside one that meets it. The conditions and limits stand in [`super::facts`].
#![tactic(auto, unfolding(crate::specs::WellFormed::is_scene))]

ghost use Rattle.std.specs.Prelude.{◌≡◌, [], ◌∷◌, map, replicate, codes, pos, negsuc, true, false, Some, None};
ghost use Rattle.std.specs.List.{range_with_len};
ghost use Rattle.rig_scene.specs.declared.channel.Axis.TheVariants.{X};
ghost use Rattle.rig_scene.specs.declared.channel.Channel.TheVariants.{LocX, LocY};
ghost use Rattle.rig_scene.specs.declared.driver.Space.TheVariants as space;
ghost use Rattle.rig_scene.specs.declared.driver.Variable.TheVariants.{Property, Transform};
ghost use Rattle.rig_scene.specs.declared.id.AnimId.TheVariants as anim;
ghost use Rattle.rig_scene.specs.declared.object.Kind.TheVariants as kind;
ghost use Rattle.rig_scene.specs.declared.path.Path.TheVariants.{Own, Bone, Layer};
ghost use Rattle.rig_scene.specs.WellFormed.{is_scene};
ghost use Rattle.rig_scene.specs.Examples.{object, layer_key};
ghost use Rattle.rig_scene.specs.ExampleCharacter.{modifier};
ghost use Rattle.rig_scene.specs.ExampleConditions.{action, curve, of_actions, of_frames, armature, bone, of_armatures, of_bones};
ghost use Rattle.rig_scene.specs.ExampleConditions.{with_parent, mirror_about, copies, of_objects, of_object, of_one_kind};
ghost use Rattle.rig_scene.specs.ExampleConditions.{of_modifiers, parent_with, pencil, layer, bone_of, of_pencils, of_layers, of_layer};
ghost use Rattle.rig_scene.specs.ExampleConditions.{driver, of_drivers, of_channel, of_variables, arm_id, empty_id, absent_id};

/// Names of actions are distinct, and so are the paths of one action; frames rise, and are at most 1,000,000 from 0.
pub fn actions_meet_conditions()
    ensures whole { is_scene (of_actions (
        action (codes "a") (curve (Own LocX) (negsuc 999999 ∷ pos 1000000 ∷ []) ∷ curve (Own LocY) [] ∷ [])
        ∷ action (codes "b") [] ∷ [])) ≡ true }
    ensures names { is_scene (of_actions (action (codes "a") [] ∷ action (codes "a") [] ∷ [])) ≡ false }
    ensures paths { is_scene (of_actions (
        action (codes "a") (curve (Own LocX) [] ∷ curve (Own LocX) [] ∷ []) ∷ [])) ≡ false }
    ensures rising { is_scene (of_frames (pos 1 ∷ pos 1 ∷ [])) ≡ false }
    ensures too_late { is_scene (of_frames (pos 1000001 ∷ [])) ≡ false }
    ensures too_early { is_scene (of_frames (negsuc 1000000 ∷ [])) ≡ false }
{}

/// Names of armatures are distinct, and so are those of the bones of one; a bone's parent is an earlier bone, and its
/// scale is at least 1.
pub fn armatures_meet_conditions()
    ensures whole { is_scene (of_armatures (
        armature (codes "a") (bone (codes "b") None (pos 1) ∷ bone (codes "c") (Some 0) (pos 1) ∷ [])
        ∷ armature (codes "b") [] ∷ [])) ≡ true }
    ensures names { is_scene (of_armatures (armature (codes "a") [] ∷ armature (codes "a") [] ∷ [])) ≡ false }
    ensures bone_names { is_scene (of_bones (bone (codes "b") None (pos 1) ∷ bone (codes "b") None (pos 1) ∷ [])) ≡ false }
    ensures itself { is_scene (of_bones (bone (codes "b") (Some 0) (pos 1) ∷ [])) ≡ false }
    ensures later { is_scene (of_bones (bone (codes "b") (Some 1) (pos 1) ∷ bone (codes "c") None (pos 1) ∷ [])) ≡ false }
    ensures scales { is_scene (of_bones (bone (codes "b") None (pos 0) ∷ [])) ≡ false }
{}

/// Names of pencils are distinct, and so are those of the layers of one; an action, a drawing and a bound bone are there;
/// frames of keys rise within their limits; a stroke has a point.
pub fn pencils_meet_conditions()
    ensures whole { is_scene (of_pencils (
        pencil (codes "p") (Some 0) (
        layer (codes "k") (bone_of 0 0) (layer_key (pos 1) 0 ∷ layer_key (pos 2) 0 ∷ [])
        ∷ layer (codes "l") None [] ∷ [])
        ∷ pencil (codes "q") None [] ∷ [])) ≡ true }
    ensures names { is_scene (of_pencils (pencil (codes "p") None [] ∷ pencil (codes "p") None [] ∷ [])) ≡ false }
    ensures action { is_scene (of_pencils (pencil (codes "p") (Some 1) [] ∷ [])) ≡ false }
    ensures points { is_scene (of_pencils (
        record (pencil (codes "p") None []) { drawings = record { strokes = record { points = [] } ∷ [] } ∷ [] } ∷ [])) ≡ false }
    ensures layer_names { is_scene (of_layers (layer (codes "l") None [] ∷ layer (codes "l") None [] ∷ [])) ≡ false }
    ensures layers { is_scene (of_layers (map (λ n. layer (n ∷ []) None []) (range_with_len 1 33))) ≡ false }
    ensures frames { is_scene (of_layer None (layer_key (pos 1000001) 0 ∷ [])) ≡ false }
    ensures rising { is_scene (of_layer None (layer_key (pos 1) 0 ∷ layer_key (pos 1) 0 ∷ [])) ≡ false }
    ensures drawing { is_scene (of_layer None (layer_key (pos 1) 1 ∷ [])) ≡ false }
    ensures bound_object { is_scene (of_layer (bone_of 1 0) []) ≡ false }
    ensures bound_bone { is_scene (of_layer (bone_of 0 1) []) ≡ false }
{}

/// Names of objects are distinct; ids rise, and lie below the next one; an action, a parent and its bone are there.
pub fn objects_meet_conditions()
    ensures whole { is_scene (of_objects (
        with_parent 1 (codes "B") (Some 0) (parent_with 0 (Some 0)) ∷ with_parent 2 (codes "C") None None ∷ [])) ≡ true }
    ensures names { is_scene (of_objects (with_parent 1 (codes "A") None None ∷ [])) ≡ false }
    ensures ids { is_scene (of_objects (with_parent 0 (codes "B") None None ∷ [])) ≡ false }
    ensures next { is_scene (of_objects (with_parent 3 (codes "B") None None ∷ [])) ≡ false }
    ensures action { is_scene (of_object (Some 1) None) ≡ false }
    ensures parent { is_scene (of_object None (parent_with 2 None)) ≡ false }
    ensures parent_bone { is_scene (of_object None (parent_with 0 (Some 1))) ≡ false }
{}

/// An armature object's armature is there, and has a bone for each of its poses; a pencil object's pencil is there, and
/// its modifiers have distinct names, centres that are there, and from 1 to 64 copies.
pub fn kinds_meet_conditions()
    ensures whole { is_scene (of_modifiers (
        modifier (codes "m") (mirror_about 0) ∷ modifier (codes "n") (copies 64) ∷ [])) ≡ true }
    ensures armature { is_scene (of_one_kind (kind.Armature 1 [])) ≡ false }
    ensures poses { is_scene (of_one_kind (kind.Armature 0 [])) ≡ false }
    ensures pencil { is_scene (of_one_kind (kind.Pencil 1 [])) ≡ false }
    ensures names { is_scene (of_modifiers (modifier (codes "m") (copies 1) ∷ modifier (codes "m") (copies 1) ∷ [])) ≡ false }
    ensures modifiers { is_scene (of_modifiers (map (λ n. modifier (n ∷ []) (copies 1)) (range_with_len 1 9))) ≡ false }
    ensures centre { is_scene (of_modifiers (modifier (codes "m") (mirror_about 2) ∷ [])) ≡ false }
    ensures no_copy { is_scene (of_modifiers (modifier (codes "m") (copies 0) ∷ [])) ≡ false }
    ensures many_copies { is_scene (of_modifiers (modifier (codes "m") (copies 65) ∷ [])) ≡ false }
{}

/// A channel has one driver at the most, and is one that its object or pencil has; a driver has from 1 to 8 variables.
pub fn drivers_meet_conditions()
    ensures whole { is_scene (of_drivers (
        driver arm_id (Bone (codes "b") LocX) (
        Property (anim.Pencil 0) (Layer (codes "l") X) ∷ Transform (object 0) (space.Pose 0) LocX ∷ [])
        ∷ driver arm_id (Own LocX) (Transform (object 1) space.World LocX ∷ [])
        ∷ driver empty_id (Own LocX) (replicate 8 (Transform (object 1) space.Local LocX)) ∷ [])) ≡ true }
    ensures twice { is_scene (of_drivers (
        driver arm_id (Own LocX) (Property empty_id (Own LocX) ∷ [])
        ∷ driver arm_id (Own LocX) (Property empty_id (Own LocY) ∷ []) ∷ [])) ≡ false }
    ensures object { is_scene (of_channel absent_id (Own LocX)) ≡ false }
    ensures bone { is_scene (of_channel arm_id (Bone (codes "c") LocX)) ≡ false }
    ensures no_bones { is_scene (of_channel empty_id (Bone (codes "b") LocX)) ≡ false }
    ensures no_layers { is_scene (of_channel arm_id (Layer (codes "l") X)) ≡ false }
    ensures pencil { is_scene (of_channel (anim.Pencil 1) (Layer (codes "l") X)) ≡ false }
    ensures layer { is_scene (of_channel (anim.Pencil 0) (Layer (codes "k") X)) ≡ false }
    ensures no_location { is_scene (of_channel (anim.Pencil 0) (Own LocX)) ≡ false }
    ensures no_bone_channel { is_scene (of_channel (anim.Pencil 0) (Bone (codes "b") LocX)) ≡ false }
    ensures no_variable { is_scene (of_variables []) ≡ false }
    ensures many_variables { is_scene (of_variables (replicate 9 (Transform (object 1) space.Local LocX))) ≡ false }
{}

/// What a variable reads is there.
pub fn variables_meet_conditions()
    ensures channel { is_scene (of_variables (Property absent_id (Own LocX) ∷ [])) ≡ false }
    ensures world { is_scene (of_variables (Transform (object 2) space.World LocX ∷ [])) ≡ false }
    ensures local { is_scene (of_variables (Transform (object 2) space.Local LocX ∷ [])) ≡ false }
    ensures bone { is_scene (of_variables (Transform (object 0) (space.Pose 1) LocX ∷ [])) ≡ false }
    ensures no_bones { is_scene (of_variables (Transform (object 1) (space.Pose 0) LocX ∷ [])) ≡ false }
{}

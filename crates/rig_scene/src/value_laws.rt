//! What the definitions of values give: each law is proved by computing.
#![tactic(auto, unfolding(rig_fixed::specs::Rotation::unit_rotation, rig_fixed::specs::Rotation::product, rig_fixed::specs::Rotation::rotate, rig_fixed::specs::Transform::carry, rig_fixed::specs::Transform::compose, rig_fixed::specs::Transform::inverse, crate::specs::Curve::curve_at, crate::specs::ChannelNumber::original_number, crate::specs::ChannelNumber::animated_number, crate::specs::Modify::modify, crate::specs::Value::driver_number, crate::specs::Value::local_transform, crate::specs::Value::world_transform, crate::specs::Value::pose_transform, crate::specs::Value::shown_layer, crate::specs::Value::joined_layers, crate::specs::Value::modified_strokes))]

ghost use Rattle.std.specs.Prelude.{◌≡◌, [], ◌∷◌, pos, negsuc, replicate, true, false};
ghost use Rattle.rig_fixed.specs.Rotation.{no_rotation};
ghost use Rattle.rig_fixed.specs.Transform.{identity, carry};
ghost use Rattle.rig_fixed.specs.Vector.{origin};
ghost use Rattle.rig_fixed.specs.Example.{v3_of, rotation_of};
ghost use Rattle.rig_scene.specs.Curve.{curve_at};
ghost use Rattle.rig_scene.specs.Combine.{combine};
ghost use Rattle.rig_scene.specs.ChannelNumber.{number_by};
ghost use Rattle.rig_scene.specs.Pose.{bone_transform, rest_chain, deform_of};
ghost use Rattle.rig_scene.specs.Layer.{held_drawing, shown_point, joined_within};
ghost use Rattle.rig_scene.specs.Modify.{modify};
ghost use Rattle.rig_scene.specs.Value.{Number, Transform, Strokes, value_at};
ghost use Rattle.rig_scene.specs.Examples.{line_to, two_layer_keys, dot, mirror_on, unit_transform, upper_bone, upper_pose};
ghost use Rattle.rig_scene.specs.Examples.{pair_scene, child_driver, child_id, line_scene, line_id, none_cut, bones_cut, worlds_cut};

use crate::channel::Channel;
use crate::driver::DriverKind;
use crate::id::AnimId;
use crate::modifier::{Effect, Mode};
use crate::path::Path;
use crate::quantity::Quantity;

/// Between two keys a curve is on the line through them, and a half goes up; beyond them it stands still.
pub fn curves_are_lines_between_keys()
    ensures rising { curve_at (line_to (pos 1)) (pos 1) ≡ Some (pos 1) }
    ensures falling { curve_at (line_to (negsuc 0)) (pos 1) ≡ Some (pos 0) }
    ensures before { curve_at (line_to (pos 1)) (negsuc 0) ≡ Some (pos 0) }
    ensures at_the_last { curve_at (line_to (pos 1)) (pos 2) ≡ Some (pos 1) }
    ensures after { curve_at (line_to (pos 1)) (pos 9) ≡ Some (pos 1) }
    ensures without_keys { curve_at [] (pos 2) ≡ None }
{}

/// An average is rounded with a half up, and its sum isn't clamped; a plain sum is.
pub fn drivers_combine_their_variables()
    ensures average { combine DriverKind.Average (pos 1 ∷ pos 2 ∷ []) ≡ pos 2 }
    ensures average_below_zero { combine DriverKind.Average (negsuc 0 ∷ negsuc 1 ∷ []) ≡ negsuc 0 }
    ensures average_at_the_limit { let limit = pos 1000000000000 in combine DriverKind.Average (limit ∷ limit ∷ []) ≡ limit }
    ensures sum_at_the_limit { let limit = pos 1000000000000 in combine DriverKind.Sum (limit ∷ limit ∷ []) ≡ limit }
    ensures least { combine DriverKind.Min (pos 3 ∷ negsuc 4 ∷ pos 2 ∷ []) ≡ negsuc 4 }
    ensures greatest { combine DriverKind.Max (negsuc 4 ∷ pos 3 ∷ pos 2 ∷ []) ≡ pos 3 }
{}

/// A driver goes before a curve, and a curve before the original number.
pub fn drivers_go_before_curves()
    ensures driven { number_by (Some (pos 3)) (Some (pos 2)) (pos 1) ≡ pos 3 }
    ensures animated { number_by None (Some (pos 2)) (pos 1) ≡ pos 2 }
    ensures original { number_by None None (pos 1) ≡ pos 1 }
{}

/// A drawing is held from its key until the next one, and none before the first.
pub fn drawings_are_held_until_the_next_key()
    ensures before { held_drawing two_layer_keys (pos 4) ≡ None }
    ensures between { held_drawing two_layer_keys (pos 9) ≡ Some 7 }
    ensures at { held_drawing two_layer_keys (pos 10) ≡ Some 8 }
{}

/// A point that is moved beyond the limits stops at them.
pub fn layers_move_points_within_the_limits()
    ensures { let point = v3_of (pos 1000000000000) (negsuc 999999999999) (pos 5) in
        shown_point (v3_of (pos 1) (negsuc 0) (pos 1)) None point
        ≡ v3_of (pos 1000000000000) (negsuc 999999999999) (pos 6) }
{}

/// Layers are left out from the first on that would bring too many points.
pub fn layers_stop_at_the_first_without_room()
    ensures { let one = dot (pos 1) (pos 2) (pos 3) ∷ [] in
        let two = dot (pos 4) (pos 5) (pos 6) ∷ dot (pos 7) (pos 8) (pos 9) ∷ [] in
        joined_within 2 (one ∷ two ∷ one ∷ []) ≡ one }
{}

/// A bone stands at its pose in its rest, and takes along what is bound to it.
pub fn bones_take_along_what_is_bound()
    ensures stands { bone_transform None upper_bone.rest upper_pose
        ≡ unit_transform (v3_of (pos 500000) (pos 1000000) (pos 0)) no_rotation }
    ensures takes { let bone = bone_transform None upper_bone.rest upper_pose in
        let deform = deform_of bone (rest_chain (upper_bone ∷ []) 0) in
        carry deform (v3_of (pos 1) (pos 2) (pos 3)) ≡ v3_of (pos 500001) (pos 2) (pos 3) }
{}

/// An array of three moves each copy by one more offset.
pub fn arrays_move_each_copy_by_one_more_offset()
    ensures { modify (Effect.Array 3 (v3_of (pos 10) (pos 0) (negsuc 0))) origin (dot (pos 1) (pos 2) (pos 3) ∷ [])
        ≡ dot (pos 1) (pos 2) (pos 3) ∷ dot (pos 11) (pos 2) (pos 2) ∷ dot (pos 21) (pos 2) (pos 1) ∷ [] }
{}

/// An array that would have too many points is left out.
pub fn arrays_of_too_many_points_are_left_out()
    ensures { let many = record { points = replicate 257 (v3_of (pos 0) (pos 0) (pos 0)) } ∷ [] in
        modify (Effect.Array 64 (v3_of (pos 1) (pos 0) (pos 0))) origin many ≡ many }
{}

/// A mirror appends all strokes so far for each axis in turn, on the other side of its centre.
pub fn mirrors_append_all_strokes_so_far()
    ensures two_axes { modify (mirror_on true true false) origin (dot (pos 1) (pos 2) (pos 3) ∷ [])
        ≡ dot (pos 1) (pos 2) (pos 3) ∷ dot (negsuc 0) (pos 2) (pos 3)
        ∷ dot (pos 1) (negsuc 1) (pos 3) ∷ dot (negsuc 0) (negsuc 1) (pos 3) ∷ [] }
    ensures about_a_centre { let centre = v3_of (pos 2000000) (pos 0) (pos 0) in
        modify (mirror_on true false false) centre (dot (pos 500000) (pos 0) (pos 0) ∷ [])
        ≡ dot (pos 500000) (pos 0) (pos 0) ∷ dot (pos 3500000) (pos 0) (pos 0) ∷ [] }
{}

/// An offset of twice the size scales a point, and then moves it.
pub fn offsets_scale_and_then_move()
    ensures { let twice = Effect.Offset (v3_of (pos 10) (pos 0) (pos 0)) (pos 2000000) in
        modify twice origin (dot (pos 1) (pos 2) (negsuc 2) ∷ []) ≡ dot (pos 12) (pos 4) (negsuc 5) ∷ [] }
{}

/// A child of a turned object is carried by it, and where the read of its parent is cut it stands as if it had none.
pub fn children_are_carried_by_their_parents()
    ensures carried { let turned = rotation_of (pos 707107) (pos 0) (pos 0) (pos 707107) in
        value_at none_cut (pair_scene []) Mode.Viewport (pos 1) 3 (Quantity.World child_id)
        ≡ Transform (unit_transform (v3_of (pos 999999) (pos 1000001) (pos 0)) turned) }
    ensures cut { value_at worlds_cut (pair_scene []) Mode.Viewport (pos 1) 3 (Quantity.World child_id)
        ≡ Transform (unit_transform (v3_of (pos 1000000) (pos 0) (pos 0)) no_rotation) }
    ensures without_depth { value_at none_cut (pair_scene []) Mode.Viewport (pos 1) 0 (Quantity.World child_id) ≡ Transform identity }
{}

/// A driven channel follows what its driver reads.
pub fn driven_channels_follow_their_variables()
    ensures number { let driven = Quantity.Chan (AnimId.Object child_id) (Path.Own Channel.LocX) in
        value_at none_cut (pair_scene (child_driver ∷ [])) Mode.Render (pos 1) 4 driven ≡ Number (pos 2000000) }
    ensures local { value_at none_cut (pair_scene (child_driver ∷ [])) Mode.Render (pos 1) 4 (Quantity.Local child_id)
        ≡ Transform (unit_transform (v3_of (pos 2000000) (pos 0) (pos 0)) no_rotation) }
{}

/// A layer shows its drawing from its key on, carried by its bone unless that read is cut.
pub fn layers_follow_their_bones()
    ensures before { value_at none_cut line_scene Mode.Viewport (pos 4) 3 (Quantity.Layer 0 1) ≡ Strokes [] }
    ensures held { value_at none_cut line_scene Mode.Viewport (pos 5) 3 (Quantity.Layer 0 1)
        ≡ Strokes (dot (pos 500001) (pos 2) (pos 7) ∷ []) }
    ensures cut { value_at bones_cut line_scene Mode.Viewport (pos 5) 3 (Quantity.Layer 0 1)
        ≡ Strokes (dot (pos 1) (pos 2) (pos 7) ∷ []) }
{}

/// Geometry leaves hidden layers out, and each modifier works in the mode that it is on in; a mirror's centre
/// is where the other object is in the own space.
pub fn modifiers_work_in_the_mode_that_they_are_on_in()
    ensures viewport { value_at none_cut line_scene Mode.Viewport (pos 5) 6 (Quantity.Geom line_id 2)
        ≡ Strokes (dot (pos 500001) (pos 2) (pos 7) ∷ dot (pos 3499999) (pos 2) (pos 7) ∷ []) }
    ensures render { value_at none_cut line_scene Mode.Render (pos 5) 6 (Quantity.Geom line_id 2)
        ≡ Strokes (dot (pos 500001) (pos 2) (pos 7) ∷ dot (pos 500011) (pos 2) (pos 7) ∷ []) }
{}

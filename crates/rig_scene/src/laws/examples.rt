//! The definitions, computed on a few scenes: expected values are worked out by the rules in docs/SEMANTICS.md.
#![tactic(auto, unfolding(crate::specs::WellFormed::is_scene, crate::specs::Cut::cuts, crate::specs::Operations::ins))]

ghost use Rattle.std.specs.Prelude.{◌≡◌, [], ◌∷◌, pos, negsuc, length, true};
ghost use Rattle.std.specs.List.{flat_map};
ghost use Rattle.rig_scene.specs.declared.channel.Channel.TheVariants.{LocX, LocZ};
ghost use Rattle.rig_scene.specs.declared.id.AnimId.TheVariants.{Object, Pencil};
ghost use Rattle.rig_scene.specs.declared.operation.OpId.TheVariants.{Time, Animation, Driver, Local, World, PoseInit, Bone, PoseDone, Layer, Geometry, ModifierOp, GeometryDone};
ghost use Rattle.rig_scene.specs.declared.path.Path.TheVariants.{Own};
ghost use Rattle.rig_scene.specs.declared.quantity.Quantity.TheVariants as quantity;
ghost use Rattle.rig_scene.specs.WellFormed.{is_scene};
ghost use Rattle.rig_scene.specs.Quantities.{quantities, reads, inner_read, reference_read};
ghost use Rattle.rig_scene.specs.Cut.{cuts};
ghost use Rattle.rig_scene.specs.Operations.{operations, ins, kept_link};
ghost use Rattle.rig_scene.specs.Value.{Number, Transform, Strokes, val};
ghost use Rattle.rig_scene.specs.Examples.{object, transform_at, dot, at_the_limit, pair_scene, child_driver, line_scene};
ghost use Rattle.rig_scene.specs.ExampleCharacter.{character, body, sketch, centre, hand_x, offset_x};
ghost use Rattle.rig_scene.specs.ExampleCutBone.{cut_bone};

use crate::modifier::Mode;

/// The other scenes on which values are computed meet the conditions of a scene, too.
pub fn example_scenes_are_scenes()
    ensures at_the_limit { is_scene at_the_limit ≡ true }
    ensures pair { is_scene (pair_scene []) ≡ true }
    ensures driven_pair { is_scene (pair_scene (child_driver ∷ [])) ≡ true }
{}

/// The scene of an armature object and a pencil object.
pub fn a_line_has_no_cut()
    ensures is_scene { is_scene line_scene ≡ true }
    ensures operations { length (operations line_scene) ≡ 14 }
    ensures cuts { cuts line_scene ≡ [] }
    ensures links { length (flat_map (ins line_scene) (operations line_scene)) ≡ 14 }
{}

/// The pencil's driven channel and layers come first, then what each object has; driven channels are in the order of
/// the drivers.
pub fn a_character_has_seventeen_quantities()
    ensures { quantities character
        ≡ quantity.Chan (Pencil 0) offset_x ∷ quantity.Layer 0 0 ∷ quantity.Layer 0 1
        ∷ quantity.Chan (Object body) hand_x ∷ quantity.Local body ∷ quantity.World body ∷ quantity.Bone body 0 ∷ quantity.Bone body 1
        ∷ quantity.Local sketch ∷ quantity.World sketch ∷ quantity.Geom sketch 0 ∷ quantity.Geom sketch 1 ∷ quantity.Geom sketch 2
        ∷ quantity.Chan (Object centre) (Own LocZ) ∷ quantity.Chan (Object centre) (Own LocX)
        ∷ quantity.Local centre ∷ quantity.World centre ∷ [] }
{}

/// The time comes first, and animations come before what they animate.
pub fn a_character_has_twenty_four_operations()
    ensures { operations character
        ≡ Time ∷ Animation (Pencil 0) ∷ Driver (Pencil 0) offset_x ∷ Layer 0 0 ∷ Layer 0 1
        ∷ Animation (Object body) ∷ Driver (Object body) hand_x ∷ Local body ∷ World body
        ∷ PoseInit body ∷ Bone body 0 ∷ Bone body 1 ∷ PoseDone body
        ∷ Local sketch ∷ World sketch ∷ Geometry sketch ∷ ModifierOp sketch 1 ∷ ModifierOp sketch 2 ∷ GeometryDone sketch
        ∷ Animation (Object centre) ∷ Driver (Object centre) (Own LocZ) ∷ Driver (Object centre) (Own LocX)
        ∷ Local centre ∷ World centre ∷ [] }
{}

/// A character is a scene, whose reads make no cycle.
pub fn a_character_has_thirty_five_links()
    ensures is_scene { is_scene character ≡ true }
    ensures cuts { cuts character ≡ [] }
    ensures links { length (flat_map (ins character) (operations character)) ≡ 35 }
{}

/// The reads of each kind of quantity, in order: an inner read is within an object or of its pencil, and driven channels
/// are read in the order of the channels.
pub fn a_character_has_reads_of_each_kind()
    ensures channel { reads character (quantity.Chan (Object body) hand_x)
        ≡ reference_read (quantity.Chan (Pencil 0) offset_x) ∷ reference_read (quantity.World centre) ∷ [] }
    ensures local { reads character (quantity.Local centre)
        ≡ inner_read (quantity.Chan (Object centre) (Own LocX)) ∷ inner_read (quantity.Chan (Object centre) (Own LocZ)) ∷ [] }
    ensures world { reads character (quantity.World sketch)
        ≡ inner_read (quantity.Local sketch) ∷ reference_read (quantity.World body) ∷ reference_read (quantity.Bone body 1) ∷ [] }
    ensures bone { reads character (quantity.Bone body 1)
        ≡ inner_read (quantity.Chan (Object body) hand_x) ∷ inner_read (quantity.Bone body 0) ∷ [] }
    ensures bound_layer { reads character (quantity.Layer 0 0)
        ≡ inner_read (quantity.Chan (Pencil 0) offset_x) ∷ reference_read (quantity.Bone body 1) ∷ [] }
    ensures free_layer { reads character (quantity.Layer 0 1) ≡ [] }
    ensures geometry { reads character (quantity.Geom sketch 0)
        ≡ inner_read (quantity.Layer 0 0) ∷ inner_read (quantity.Layer 0 1) ∷ [] }
    ensures mirror { reads character (quantity.Geom sketch 1)
        ≡ inner_read (quantity.Geom sketch 0) ∷ inner_read (quantity.World sketch) ∷ reference_read (quantity.World centre) ∷ [] }
    ensures array { reads character (quantity.Geom sketch 2) ≡ inner_read (quantity.Geom sketch 1) ∷ [] }
{}

/// What an animation, a driver and a transform need. A variable that is neither driven nor animated needs nothing.
pub fn channels_and_transforms_of_a_character_have_links()
    ensures time { ins character Time ≡ [] }
    ensures animation { ins character (Animation (Object body)) ≡ kept_link Time ∷ [] }
    ensures driver { ins character (Driver (Object body) hand_x)
        ≡ kept_link (Driver (Pencil 0) offset_x) ∷ kept_link (Animation (Object body)) ∷ kept_link (World centre) ∷ [] }
    ensures plain_driver { ins character (Driver (Object centre) (Own LocZ)) ≡ [] }
    ensures local_driver { ins character (Driver (Pencil 0) offset_x) ≡ kept_link (Local centre) ∷ [] }
    ensures animated { ins character (Local body) ≡ kept_link (Animation (Object body)) ∷ [] }
    ensures driven { ins character (Local centre)
        ≡ kept_link (Animation (Object centre)) ∷ kept_link (Driver (Object centre) (Own LocX))
        ∷ kept_link (Driver (Object centre) (Own LocZ)) ∷ [] }
    ensures neither { ins character (Local sketch) ≡ [] }
    ensures world { ins character (World sketch) ≡ kept_link (Local sketch) ∷ kept_link (World body) ∷ kept_link (Bone body 1) ∷ [] }
{}

/// What a pose needs: its bones come after its opening, and its end after all of them.
pub fn poses_of_a_character_have_links()
    ensures opening { ins character (PoseInit body) ≡ kept_link (Animation (Object body)) ∷ [] }
    ensures root { ins character (Bone body 0) ≡ kept_link (PoseInit body) ∷ [] }
    ensures hand { ins character (Bone body 1)
        ≡ kept_link (PoseInit body) ∷ kept_link (Driver (Object body) hand_x) ∷ kept_link (Bone body 0) ∷ [] }
    ensures end { ins character (PoseDone body) ≡ kept_link (Bone body 0) ∷ kept_link (Bone body 1) ∷ [] }
{}

/// What layers and geometry need. A layer needs the time where it has keys.
pub fn strokes_of_a_character_have_links()
    ensures bound { ins character (Layer 0 0)
        ≡ kept_link (Animation (Pencil 0)) ∷ kept_link (Driver (Pencil 0) offset_x) ∷ kept_link (Bone body 1) ∷ [] }
    ensures keyed { ins character (Layer 0 1) ≡ kept_link Time ∷ kept_link (Animation (Pencil 0)) ∷ [] }
    ensures geometry { ins character (Geometry sketch) ≡ kept_link (Layer 0 0) ∷ kept_link (Layer 0 1) ∷ [] }
    ensures mirror { ins character (ModifierOp sketch 1)
        ≡ kept_link (Geometry sketch) ∷ kept_link (World sketch) ∷ kept_link (World centre) ∷ [] }
    ensures array { ins character (ModifierOp sketch 2) ≡ kept_link (ModifierOp sketch 1) ∷ [] }
    ensures end { ins character (GeometryDone sketch) ≡ kept_link (ModifierOp sketch 2) ∷ [] }
{}

/// Values at frame 1. The centre's y, 3, is the offset of the hand's layer and with it the hand's x; the hand stands two
/// units above the body and half a unit beside it, and carries the sketch. In the sketch's space the centre lies at
/// x -500,003, about which the one point of the free layer is mirrored, and both are copied 10 further.
#[tactic(auto, unfolding(rig_fixed::specs::Rotation::unit_rotation, rig_fixed::specs::Rotation::product, rig_fixed::specs::Rotation::rotate, rig_fixed::specs::Transform::carry, rig_fixed::specs::Transform::compose, rig_fixed::specs::Transform::inverse, crate::specs::Curve::curve_at, crate::specs::ChannelNumber::original_number, crate::specs::ChannelNumber::animated_number, crate::specs::Modify::modify, crate::specs::Value::driver_number, crate::specs::Value::local_transform, crate::specs::Value::world_transform, crate::specs::Value::pose_transform, crate::specs::Value::shown_layer, crate::specs::Value::joined_layers, crate::specs::Value::modified_strokes, crate::specs::Cut::cuts, crate::specs::Value::val))]
pub fn a_character_has_values()
    ensures channel { val character Mode.Viewport (pos 1) (quantity.Chan (Object body) hand_x) ≡ Number (pos 3) }
    ensures hand { val character Mode.Viewport (pos 1) (quantity.Bone body 1)
        ≡ Transform (transform_at (pos 500003) (pos 2000000) (pos 0)) }
    ensures sketch { val character Mode.Viewport (pos 1) (quantity.World sketch)
        ≡ Transform (transform_at (pos 500003) (pos 2000000) (pos 0)) }
    ensures geometry { val character Mode.Viewport (pos 1) (quantity.Geom sketch 2)
        ≡ Strokes (dot (pos 1) (pos 2) (pos 3) ∷ dot (negsuc 1000006) (pos 2) (pos 3)
        ∷ dot (pos 11) (pos 2) (pos 3) ∷ dot (negsuc 999996) (pos 2) (pos 3) ∷ []) }
    ensures before { val character Mode.Viewport (pos 0) (quantity.Geom sketch 2) ≡ Strokes [] }
{}

/// A bone that follows what it carries: the read of the bone by the object that it carries is cut, and the link too.
pub fn a_bone_is_cut_off_what_it_carries()
    ensures is_scene { is_scene cut_bone ≡ true }
    ensures operations { length (operations cut_bone) ≡ 9 }
    ensures links { length (flat_map (ins cut_bone) (operations cut_bone)) ≡ 8 }
    ensures cuts { cuts cut_bone ≡ record { source = quantity.Bone (object 0) 0; reader = quantity.World (object 1) } ∷ [] }
    ensures link { ins cut_bone (World (object 1))
        ≡ kept_link (Local (object 1)) ∷ kept_link (World (object 0)) ∷ record { op = Bone (object 0) 0; cut = true } ∷ [] }
{}

/// The object stands at its own 7 beside the armature's 5, as if the bone stood at 0; the bone's x is that 12 and the
/// object's own 7.
#[tactic(auto, unfolding(rig_fixed::specs::Rotation::unit_rotation, rig_fixed::specs::Rotation::product, rig_fixed::specs::Rotation::rotate, rig_fixed::specs::Transform::carry, rig_fixed::specs::Transform::compose, crate::specs::ChannelNumber::original_number, crate::specs::ChannelNumber::animated_number, crate::specs::Cut::cuts, crate::specs::Value::val, crate::specs::Value::driver_number, crate::specs::Value::local_transform, crate::specs::Value::world_transform, crate::specs::Value::pose_transform))]
pub fn a_bone_that_is_cut_off_gives_no_transform()
    ensures object { val cut_bone Mode.Viewport (pos 1) (quantity.World (object 1)) ≡ Transform (transform_at (pos 12) (pos 0) (pos 0)) }
    ensures bone { val cut_bone Mode.Viewport (pos 1) (quantity.Bone (object 0) 0)
        ≡ Transform (transform_at (pos 19) (pos 1000000) (pos 0)) }
{}

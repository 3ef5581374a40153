//! What the values of operations are on small scenes, each equation proved by computing it.
#![tactic(auto, unfolding(rig_scene::specs::Cut::cuts, rig_scene::specs::Operations::ins, rig_fixed::specs::Rotation::unit_rotation, rig_fixed::specs::Rotation::product, rig_fixed::specs::Rotation::rotate, rig_fixed::specs::Transform::carry, rig_fixed::specs::Transform::compose, rig_fixed::specs::Transform::inverse, rig_scene::specs::Curve::curve_at, rig_scene::specs::ChannelNumber::original_number, rig_scene::specs::ChannelNumber::animated_number, rig_scene::specs::Modify::modify, rig_scene::specs::Value::driver_number, rig_scene::specs::Value::local_transform, rig_scene::specs::Value::world_transform, rig_scene::specs::Value::pose_transform, rig_scene::specs::Value::shown_layer, rig_scene::specs::Value::joined_layers, rig_scene::specs::Value::modified_strokes, rig_scene::specs::Value::val, crate::specs::Kernel::driver_number, crate::specs::Kernel::local_transform, crate::specs::Kernel::world_transform, crate::specs::Kernel::pose_transform, crate::specs::Kernel::layer_shown, crate::specs::Kernel::modified_strokes, crate::specs::Kernel::kernel, crate::specs::OperationValue::operation_value))]

ghost use Rattle.std.specs.Prelude.{◌≡◌, [], ◌∷◌, None, Some, pos, negsuc, true, false};
ghost use Rattle.rig_fixed.specs.Transform.{identity};
ghost use Rattle.rig_scene.specs.declared.channel.Channel.TheVariants.{LocX, LocZ};
ghost use Rattle.rig_scene.specs.declared.id.AnimId.TheVariants as anim;
ghost use Rattle.rig_scene.specs.declared.modifier.Mode.TheVariants.{Viewport, Render};
ghost use Rattle.rig_scene.specs.declared.operation.OpId.TheVariants.{Time, Animation, Driver, Local, World, PoseInit, Bone, PoseDone, Layer, Geometry, ModifierOp, GeometryDone};
ghost use Rattle.rig_scene.specs.declared.path.Path.TheVariants.{Own};
ghost use Rattle.rig_scene.specs.ExampleCharacter.{character, body, sketch, centre, hand_x, offset_x};
ghost use Rattle.rig_scene.specs.ExampleCutBone.{cut_bone};
ghost use Rattle.rig_scene.specs.Examples.{object, transform_at, dot, line_scene, line_id, rig_id};
ghost use Rattle.rig_scene.specs.Operations.{ins, kept_link};
ghost use Rattle.rig_scene.specs.Value.{Numbers, Number, Transform, Strokes};
ghost use Rattle.rig_laws.specs.KernelExamples.{gave, twice_the_other, too_many};
ghost use Rattle.rig_laws.specs.Kernel.{kernel};
ghost use Rattle.rig_laws.specs.OperationValue.{operation_value};
ghost use Rattle.rig_laws.specs.Output.{output_at, rest_output, time_value};

/// The time gives the frame, and the animation of an id and the start of its pose what its curves give. The end of a pose has
/// nothing to give, and the result of a geometry is what is there after its last modifier.
pub fn operations_without_a_quantity_have_values()
    ensures time { operation_value character Viewport (pos 7) Time ≡ Numbers (Some (pos 7) ∷ []) }
    ensures animation { operation_value character Viewport (pos 7) (Animation (anim.Object body)) ≡ Numbers (Some (pos 0) ∷ []) }
    ensures start { operation_value character Viewport (pos 7) (PoseInit body) ≡ Numbers (Some (pos 0) ∷ []) }
    ensures end { operation_value character Viewport (pos 7) (PoseDone body) ≡ Numbers [] }
    ensures result { operation_value line_scene Render (pos 5) (GeometryDone line_id)
        ≡ Strokes (dot (pos 500001) (pos 2) (pos 7) ∷ dot (pos 500011) (pos 2) (pos 7) ∷ []) }
{}

/// A kept link gives the value of its operation, and a cut one a rest value.
pub fn a_cut_link_gives_a_rest_value()
    ensures kept { output_at (operation_value cut_bone Viewport (pos 1)) (kept_link (Bone (object 0) 0))
        ≡ gave (Bone (object 0) 0) (Transform (transform_at (pos 19) (pos 1000000) (pos 0))) }
    ensures cut { output_at (operation_value cut_bone Viewport (pos 1)) (record { op = Bone (object 0) 0; cut = true })
        ≡ record { op = Bone (object 0) 0; value = Transform identity; is_rest = true } }
{}

/// A driven x goes before an animated one, and a driven z stands behind the driven x. The y is the original number.
pub fn channels_are_taken_in_their_order()
    ensures { let animation = gave (Animation (anim.Object centre)) (Numbers (Some (pos 9) ∷ [])) in
        let x = gave (Driver (anim.Object centre) (Own LocX)) (Number (pos 5)) in
        let z = gave (Driver (anim.Object centre) (Own LocZ)) (Number (pos 6)) in
        kernel character Viewport (pos 1) (Local centre) (animation ∷ x ∷ z ∷ []) ≡ Some (Transform (transform_at (pos 5) (pos 3) (pos 6))) }
{}

/// A driver sums a driven channel, one with a curve, and a transform, each by its own input. A channel that is neither driven nor
/// of an id with an action takes none.
pub fn a_driver_takes_an_input_for_each_variable()
    ensures three { let offset = gave (Driver (anim.Pencil 0) offset_x) (Number (pos 3)) in
        let animation = gave (Animation (anim.Object body)) (Numbers (Some (pos 20) ∷ [])) in
        let world = gave (World centre) (Transform (transform_at (pos 100) (pos 0) (pos 0))) in
        kernel character Viewport (pos 1) (Driver (anim.Object body) hand_x) (offset ∷ animation ∷ world ∷ []) ≡ Some (Number (pos 123)) }
    ensures none { kernel character Viewport (pos 1) (Driver (anim.Object centre) (Own LocX)) [] ≡ Some (Number (pos 0)) }
{}

/// A driver that reads one channel twice takes two inputs of one operation, each at its own place.
pub fn a_driver_takes_one_channel_twice()
    ensures links { ins twice_the_other (Driver (anim.Object (object 1)) (Own LocX))
        ≡ kept_link (Driver (anim.Object (object 0)) (Own LocX)) ∷ kept_link (Driver (anim.Object (object 0)) (Own LocX)) ∷ [] }
    ensures number { let first = gave (Driver (anim.Object (object 0)) (Own LocX)) (Number (pos 8)) in
        let second = gave (Driver (anim.Object (object 0)) (Own LocX)) (Number (pos 70)) in
        kernel twice_the_other Viewport (pos 1) (Driver (anim.Object (object 1)) (Own LocX)) (first ∷ second ∷ []) ≡ Some (Number (pos 78)) }
{}

/// A hand stands 3 beside its parent bone, by what its driver gives. What the curves give comes first, and is of another channel.
pub fn a_bone_is_carried_by_its_parent_bone()
    ensures { let start = gave (PoseInit body) (Numbers (Some (pos 9) ∷ [])) in
        let x = gave (Driver (anim.Object body) hand_x) (Number (pos 3)) in
        let upper = gave (Bone body 0) (Transform (transform_at (pos 500000) (pos 1000000) (pos 0))) in
        kernel character Viewport (pos 1) (Bone body 1) (start ∷ x ∷ upper ∷ [])
        ≡ Some (Transform (transform_at (pos 500003) (pos 2000000) (pos 0))) }
{}

/// An object at x 7 is carried by its parent at x 5 and a bone of it. Where the link to the bone is cut it is as if the bone stood at 0.
pub fn an_object_is_carried_by_its_parent_and_a_bone()
    ensures kept { let own = gave (Local (object 1)) (Transform (transform_at (pos 7) (pos 0) (pos 0))) in
        let parent = gave (World (object 0)) (Transform (transform_at (pos 5) (pos 0) (pos 0))) in
        let bone = gave (Bone (object 0) 0) (Transform (transform_at (pos 100) (pos 0) (pos 0))) in
        kernel cut_bone Viewport (pos 1) (World (object 1)) (own ∷ parent ∷ bone ∷ []) ≡ Some (Transform (transform_at (pos 112) (pos 0) (pos 0))) }
    ensures cut { let own = gave (Local (object 1)) (Transform (transform_at (pos 7) (pos 0) (pos 0))) in
        let parent = gave (World (object 0)) (Transform (transform_at (pos 5) (pos 0) (pos 0))) in
        kernel cut_bone Viewport (pos 1) (World (object 1)) (own ∷ parent ∷ rest_output (Bone (object 0) 0) ∷ [])
        ≡ Some (Transform (transform_at (pos 12) (pos 0) (pos 0))) }
{}

/// A layer goes with the bone that it is bound to. A cut bone leaves it where it was but for its offset, 4 along z, while a bone
/// that stands at 0 takes it a unit away from its rest. The drawing is held from frame 5 on, by what the time gives.
pub fn a_cut_bone_leaves_a_layer_where_it_was()
    ensures kept { kernel line_scene Viewport (pos 5) (Layer 0 1)
        (gave Time (time_value (pos 5)) ∷ gave (Bone rig_id 0) (Transform (transform_at (pos 500000) (pos 1000000) (pos 0))) ∷ [])
        ≡ Some (Strokes (dot (pos 500001) (pos 2) (pos 7) ∷ [])) }
    ensures cut { kernel line_scene Viewport (pos 5) (Layer 0 1) (gave Time (time_value (pos 5)) ∷ rest_output (Bone rig_id 0) ∷ [])
        ≡ Some (Strokes (dot (pos 1) (pos 2) (pos 7) ∷ [])) }
    ensures at_0 { kernel line_scene Viewport (pos 5) (Layer 0 1) (gave Time (time_value (pos 5)) ∷ gave (Bone rig_id 0) (Transform identity) ∷ [])
        ≡ Some (Strokes (dot (pos 1) (negsuc 999997) (pos 7) ∷ [])) }
    ensures before { kernel line_scene Viewport (pos 5) (Layer 0 1) (gave Time (time_value (pos 4)) ∷ rest_output (Bone rig_id 0) ∷ [])
        ≡ Some (Strokes []) }
{}

/// The first layer of the pencil is hidden, and the geometry shows the second alone.
pub fn hidden_layers_are_not_shown()
    ensures { kernel line_scene Viewport (pos 5) (Geometry line_id)
        (gave (Layer 0 0) (Strokes (dot (pos 9) (pos 9) (pos 9) ∷ [])) ∷ gave (Layer 0 1) (Strokes (dot (pos 1) (pos 2) (pos 3) ∷ [])) ∷ [])
        ≡ Some (Strokes (dot (pos 1) (pos 2) (pos 3) ∷ [])) }
{}

/// A geometry stops at the layer that would bring too many points, and leaves out those that come after it, too.
pub fn a_geometry_stops_at_the_layer_without_room()
    ensures first { kernel character Viewport (pos 1) (Geometry sketch)
        (gave (Layer 0 0) (Strokes too_many) ∷ gave (Layer 0 1) (Strokes (dot (pos 1) (pos 2) (pos 3) ∷ [])) ∷ [])
        ≡ Some (Strokes []) }
    ensures second { kernel character Viewport (pos 1) (Geometry sketch)
        (gave (Layer 0 0) (Strokes (dot (pos 1) (pos 2) (pos 3) ∷ [])) ∷ gave (Layer 0 1) (Strokes too_many) ∷ [])
        ≡ Some (Strokes (dot (pos 1) (pos 2) (pos 3) ∷ [])) }
{}

/// A mirror is on in the viewport alone, and mirrors about where its centre is in the object's own space. The render doesn't look at
/// the viewport's switch.
pub fn the_render_does_not_look_at_the_viewports_switch()
    ensures viewport { let strokes = gave (ModifierOp line_id 1) (Strokes (dot (pos 1) (pos 2) (pos 3) ∷ [])) in
        let own = gave (World line_id) (Transform (transform_at (pos 10) (pos 0) (pos 0))) in
        let centre = gave (World rig_id) (Transform (transform_at (pos 15) (pos 0) (pos 0))) in
        kernel line_scene Viewport (pos 5) (ModifierOp line_id 2) (strokes ∷ own ∷ centre ∷ [])
        ≡ Some (Strokes (dot (pos 1) (pos 2) (pos 3) ∷ dot (pos 9) (pos 2) (pos 3) ∷ [])) }
    ensures render { let strokes = gave (ModifierOp line_id 1) (Strokes (dot (pos 1) (pos 2) (pos 3) ∷ [])) in
        let own = gave (World line_id) (Transform (transform_at (pos 10) (pos 0) (pos 0))) in
        let centre = gave (World rig_id) (Transform (transform_at (pos 15) (pos 0) (pos 0))) in
        kernel line_scene Render (pos 5) (ModifierOp line_id 2) (strokes ∷ own ∷ centre ∷ [])
        ≡ Some (Strokes (dot (pos 1) (pos 2) (pos 3) ∷ [])) }
{}

/// An operation of what a scene hasn't gives nothing. Modifiers are counted from 1.
pub fn what_a_scene_has_not_gives_nothing()
    ensures object { kernel character Viewport (pos 1) (Local (object 9)) [] ≡ None }
    ensures layer { kernel character Viewport (pos 1) (Layer 0 2) [] ≡ None }
    ensures modifier { kernel character Viewport (pos 1) (ModifierOp sketch 0) [] ≡ None }
    ensures kind { kernel character Viewport (pos 1) (Geometry body) [] ≡ None }
{}

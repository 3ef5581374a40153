//! Laws of the definitions, each proved by computing them on a small scene.
ghost use Rattle.std.specs.Prelude.{◌≡◌, [], ◌∷◌, pos, length, true};
ghost use Rattle.std.specs.List.{flat_map};
ghost use Rattle.rig_scene.specs.declared.id.AnimId.TheVariants as anim;
ghost use Rattle.rig_scene.specs.declared.channel.Channel.TheVariants.{LocX};
ghost use Rattle.rig_scene.specs.declared.path.Path.TheVariants.{Own};
ghost use Rattle.rig_scene.specs.declared.quantity.Quantity.TheVariants as quantity;
ghost use Rattle.rig_scene.specs.declared.operation.OpId.TheVariants as operation;
ghost use Rattle.rig_scene.specs.WellFormed.{is_scene};
ghost use Rattle.rig_scene.specs.Quantities.{quantities};
ghost use Rattle.rig_scene.specs.Cut.{cuts};
ghost use Rattle.rig_scene.specs.Operations.{operations, ins, kept_link};
ghost use Rattle.rig_scene.specs.Value.{Transform, val};
ghost use Rattle.rig_scene.specs.Examples.{object, transform_at, at_the_limit, moving_root, parent_after_child, after_itself, ring_of_parents};

use crate::modifier::Mode;

pub mod conditions;
pub mod counts;
pub mod distinct;
pub mod equality;
pub mod examples;
pub mod facts;
pub mod order;

/// The small scenes meet the conditions of a scene.
#[tactic(auto, unfolding(crate::specs::WellFormed::is_scene))]
pub fn small_scenes_are_scenes()
    ensures moving_root { is_scene moving_root ≡ true }
    ensures parent_after_child { is_scene parent_after_child ≡ true }
    ensures after_itself { is_scene after_itself ≡ true }
    ensures ring_of_parents { is_scene ring_of_parents ≡ true }
{}

/// Two objects have a local and a world transform each, in the order of the objects.
pub fn two_objects_have_four_quantities()
    ensures { quantities moving_root
        ≡ quantity.Local (object 0) ∷ quantity.World (object 0) ∷ quantity.Local (object 1) ∷ quantity.World (object 1) ∷ [] }
{}

/// Their operations are the time, the root's animation, and the transforms.
pub fn two_objects_have_six_operations()
    ensures { operations moving_root
        ≡ operation.Time ∷ operation.Animation (anim.Object (object 0)) ∷ operation.Local (object 0) ∷ operation.World (object 0)
        ∷ operation.Local (object 1) ∷ operation.World (object 1) ∷ [] }
{}

/// The root follows its animation, and the child follows the root.
#[tactic(auto, unfolding(crate::specs::Cut::cuts, crate::specs::Operations::ins))]
pub fn a_child_needs_its_parent()
    ensures animation { ins moving_root (operation.Animation (anim.Object (object 0))) ≡ kept_link operation.Time ∷ [] }
    ensures root_local { ins moving_root (operation.Local (object 0)) ≡ kept_link (operation.Animation (anim.Object (object 0))) ∷ [] }
    ensures root_world { ins moving_root (operation.World (object 0)) ≡ kept_link (operation.Local (object 0)) ∷ [] }
    ensures child_local { ins moving_root (operation.Local (object 1)) ≡ [] }
    ensures child_world { ins moving_root (operation.World (object 1))
        ≡ kept_link (operation.Local (object 1)) ∷ kept_link (operation.World (object 0)) ∷ [] }
{}

/// A parent that follows its child has six operations with five in-links, one of them cut. A channel that follows
/// itself makes four operations with three.
#[tactic(auto, unfolding(crate::specs::Cut::cuts, crate::specs::Operations::ins))]
pub fn cut_links_are_counted()
    ensures operations { length (operations parent_after_child) ≡ 6 }
    ensures links { length (flat_map (ins parent_after_child) (operations parent_after_child)) ≡ 5 }
    ensures own_operations { length (operations after_itself) ≡ 4 }
    ensures own_links { length (flat_map (ins after_itself) (operations after_itself)) ≡ 3 }
{}

/// A parent that follows its child: the child's read of its parent closes the cycle, and is cut.
#[tactic(auto, unfolding(crate::specs::Cut::cuts))]
pub fn the_read_that_closes_a_cycle_is_cut()
    ensures { cuts parent_after_child
        ≡ record { source = quantity.World (object 0); reader = quantity.World (object 1) } ∷ [] }
{}

/// A channel that follows itself is cut off itself.
#[tactic(auto, unfolding(crate::specs::Cut::cuts))]
pub fn a_channel_is_cut_off_itself()
    ensures { cuts after_itself
        ≡ record {
          source = quantity.Chan (anim.Object (object 0)) (Own LocX);
          reader = quantity.Chan (anim.Object (object 0)) (Own LocX);
        } ∷ [] }
{}

/// In a ring of parents the last read is cut, and a scene without a cycle has no cut read.
#[tactic(auto, unfolding(crate::specs::Cut::cuts))]
pub fn one_read_of_a_ring_is_cut()
    ensures ring { cuts ring_of_parents ≡ record { source = quantity.World (object 1); reader = quantity.World (object 2) } ∷ [] }
    ensures none { cuts moving_root ≡ [] }
{}

/// Where the root and the child of the moving scene stand at two frames, and a child whose sum is beyond the limit.
#[tactic(auto, unfolding(rig_fixed::specs::Rotation::unit_rotation, rig_fixed::specs::Rotation::product, rig_fixed::specs::Rotation::rotate, rig_fixed::specs::Transform::carry, rig_fixed::specs::Transform::compose, crate::specs::Cut::cuts, crate::specs::Curve::curve_at, crate::specs::ChannelNumber::original_number, crate::specs::ChannelNumber::animated_number, crate::specs::Value::local_transform, crate::specs::Value::world_transform, crate::specs::Value::val))]
pub fn a_child_moves_with_its_parent()
    ensures root { val moving_root Mode.Viewport (pos 6) (quantity.World (object 0))
        ≡ Transform (transform_at (pos 5000000) (pos 0) (pos 0)) }
    ensures child { val moving_root Mode.Viewport (pos 6) (quantity.World (object 1))
        ≡ Transform (transform_at (pos 7000000) (pos 0) (pos 0)) }
    ensures at_the_limit { val at_the_limit Mode.Viewport (pos 1) (quantity.World (object 1))
        ≡ Transform (transform_at (pos 1000000000000) (pos 0) (pos 0)) }
    ensures later { val moving_root Mode.Viewport (pos 7) (quantity.World (object 1))
        ≡ Transform (transform_at (pos 8000000) (pos 0) (pos 0)) }
{}

/// Where a parent follows its child, and the child is cut off its parent; and where an object follows itself.
#[tactic(auto, unfolding(rig_fixed::specs::Rotation::unit_rotation, rig_fixed::specs::Rotation::product, rig_fixed::specs::Rotation::rotate, rig_fixed::specs::Transform::carry, rig_fixed::specs::Transform::compose, crate::specs::Cut::cuts, crate::specs::ChannelNumber::original_number, crate::specs::ChannelNumber::animated_number, crate::specs::Value::driver_number, crate::specs::Value::local_transform, crate::specs::Value::world_transform, crate::specs::Value::val))]
pub fn a_cut_read_gives_its_rest_value()
    ensures parent { val parent_after_child Mode.Viewport (pos 1) (quantity.World (object 0))
        ≡ Transform (transform_at (pos 1000000) (pos 0) (pos 0)) }
    ensures child { val parent_after_child Mode.Viewport (pos 1) (quantity.World (object 1))
        ≡ Transform (transform_at (pos 1000000) (pos 0) (pos 0)) }
    ensures itself { val after_itself Mode.Viewport (pos 1) (quantity.World (object 0)) ≡ Transform (transform_at (pos 0) (pos 7) (pos 0)) }
{}

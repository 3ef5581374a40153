//! What the definitions of the laws give on small scenes, each equation proved by computing it.
#![tactic(auto, unfolding(rig_scene::specs::WellFormed::is_scene, rig_scene::specs::Cut::cuts, rig_scene::specs::Operations::ins, crate::specs::LinkArrows::link_arrows, rig_fixed::specs::Rotation::unit_rotation, rig_fixed::specs::Rotation::product, rig_fixed::specs::Rotation::rotate, rig_fixed::specs::Transform::carry, rig_fixed::specs::Transform::compose, rig_scene::specs::ChannelNumber::original_number, rig_scene::specs::ChannelNumber::animated_number, rig_scene::specs::Value::driver_number, rig_scene::specs::Value::local_transform, rig_scene::specs::Value::world_transform, rig_scene::specs::Value::val))]

ghost use Rattle.std.specs.Prelude.{◌≡◌, ℕ, [], ◌∷◌, None, Some, pos, map, length, nat_eq, nat_lt, true, false};
ghost use Rattle.rig_cycles.specs.Cut.{cuts_from};
ghost use Rattle.rig_cycles.specs.Names.{arrow_map};
ghost use Rattle.rig_fixed.specs.Transform.{identity};
ghost use Rattle.rig_scene.specs.declared.channel.Channel.TheVariants.{LocX};
ghost use Rattle.rig_scene.specs.declared.id.AnimId.TheVariants as anim;
ghost use Rattle.rig_scene.specs.declared.modifier.Mode.TheVariants.{Viewport};
ghost use Rattle.rig_scene.specs.declared.operation.OpId.{OpId};
ghost use Rattle.rig_scene.specs.declared.operation.OpId.TheVariants as operation;
ghost use Rattle.rig_scene.specs.declared.path.Path.TheVariants.{Own};
ghost use Rattle.rig_scene.specs.declared.quantity.Quantity.TheVariants.{Chan, Local, World, Bone, Layer, Geom};
ghost use Rattle.rig_scene.specs.Cut.{cuts, is_among, is_cut};
ghost use Rattle.rig_scene.specs.ExampleCharacter.{character, body, sketch, centre, hand_x, offset_x};
ghost use Rattle.rig_scene.specs.Examples.{object, transform_at, moving_root, parent_after_child, after_itself, ring_of_parents};
ghost use Rattle.rig_scene.specs.Operations.{ins, kept_link};
ghost use Rattle.rig_scene.specs.Quantities.{quantities, reads, inner_read, reference_read};
ghost use Rattle.rig_scene.specs.Value.{Transform, val, value_at};
ghost use Rattle.rig_scene.specs.WellFormed.{is_scene};
ghost use Rattle.rig_laws.specs.Examples.{alone, own_parent, numbered};
ghost use Rattle.rig_laws.specs.Kept.{arrow_of, kept_arrows, kept_links, cut_links};
ghost use Rattle.rig_laws.specs.LinkArrows.{inner_link, reference_link, link_arrows, scene_arrows, inner_links, reference_links};
ghost use Rattle.rig_laws.specs.Members.{has_quantity, has_operation};
ghost use Rattle.rig_laws.specs.Rank.{rank};
ghost use Rattle.rig_laws.specs.ValueOver.{value_over};

/// A child's world transform stands above its own local transform, which it reads by an inner read, and as high as its
/// parent's world transform, which it reads by a reference read.
pub fn a_child_stands_as_high_as_its_parent()
    ensures reads { reads moving_root (World (object 1)) ≡ inner_read (Local (object 1)) ∷ reference_read (World (object 0)) ∷ [] }
    ensures as_high { rank (World (object 1)) ≡ rank (World (object 0)) }
    ensures above { nat_lt (rank (Local (object 1))) (rank (World (object 1))) ≡ true }
{}

/// A bone stands above its parent bone, and the geometry of a pencil object above its layers.
pub fn inner_reads_are_of_what_stands_lower()
    ensures bone { nat_lt (rank (Bone body 0)) (rank (Bone body 1)) ≡ true }
    ensures geometry { nat_lt (rank (Layer 0 0)) (rank (Geom sketch 0)) ≡ true }
    ensures next_geometry { nat_lt (rank (Geom sketch 0)) (rank (Geom sketch 1)) ≡ true }
{}

/// A pencil object with two layers and two modifiers has these, and none beyond them. Its modifiers are counted from 1, and
/// the geometry before them is 0.
pub fn a_scene_has_what_it_names()
    ensures last_layer { has_quantity character (Layer 0 1) ≡ true }
    ensures no_layer { has_quantity character (Layer 0 2) ≡ false }
    ensures last_geometry { has_quantity character (Geom sketch 2) ≡ true }
    ensures no_geometry { has_quantity character (Geom sketch 3) ≡ false }
    ensures first_modifier { has_operation character (operation.ModifierOp sketch 1) ≡ true }
    ensures no_modifier { has_operation character (operation.ModifierOp sketch 0) ≡ false }
    ensures pose { has_operation character (operation.PoseInit body) ≡ true }
    ensures no_pose { has_operation character (operation.PoseInit sketch) ≡ false }
    ensures last_bone { has_operation character (operation.Bone body 1) ≡ true }
{}

/// An operation that a scene hasn't has a link to one that it hasn't.
pub fn what_is_missing_needs_what_is_missing()
    ensures link { ins moving_root (operation.World (object 9)) ≡ kept_link (operation.Local (object 9)) ∷ [] }
    ensures local { has_operation moving_root (operation.Local (object 9)) ≡ false }
{}

/// The link of a channel to itself is cut, and the two others are kept. A bone that is its own parent, which no scene has,
/// keeps its link to itself.
pub fn a_cut_link_is_not_kept()
    ensures after_itself { kept_links after_itself
        ≡ record {
          reader = operation.Local (object 0);
          source = operation.Driver (anim.Object (object 0)) (Own LocX);
          is_reference = false;
        }
        ∷ record { reader = operation.World (object 0); source = operation.Local (object 0); is_reference = false } ∷ [] }
    ensures own_parent { ins own_parent (operation.Bone (object 0) 0)
        ≡ kept_link (operation.PoseInit (object 0)) ∷ kept_link (operation.Bone (object 0) 0) ∷ [] }
    ensures no_scene { is_scene own_parent ≡ false }
{}

/// The read of a channel by itself is cut, and both inner reads are kept. A read with its reader is of the same kind.
pub fn a_cut_read_is_not_kept()
    ensures after_itself { kept_arrows after_itself
        ≡ arrow_of (Local (object 0)) (inner_read (Chan (anim.Object (object 0)) (Own LocX)))
        ∷ arrow_of (World (object 0)) (inner_read (Local (object 0))) ∷ [] }
    ensures inner { arrow_of (World (object 0)) (inner_read (Local (object 0)))
        ≡ record { reader = World (object 0); source = Local (object 0); is_reference = false } }
    ensures reference { arrow_of (World (object 1)) (reference_read (World (object 0)))
        ≡ record { reader = World (object 1); source = World (object 0); is_reference = true } }
{}

/// In a ring of three parents the last read is cut: told by its source and its reader, and not the other way round.
pub fn a_cut_is_told_by_its_source_and_reader()
    ensures cut { is_cut ring_of_parents (World (object 1)) (World (object 2)) ≡ true }
    ensures exchanged { is_cut ring_of_parents (World (object 2)) (World (object 1)) ≡ false }
{}

/// An object alone has two quantities. At a depth of one its world transform isn't that of its channels yet.
pub fn two_quantities_need_a_depth_of_two()
    ensures scene { is_scene alone ≡ true }
    ensures number { length (quantities alone) ≡ 2 }
    ensures depth_of_one { value_at (is_among (cuts alone)) alone Viewport (pos 1) 1 (World (object 0)) ≡ Transform identity }
    ensures depth_of_two { value_at (is_among (cuts alone)) alone Viewport (pos 1) 2 (World (object 0))
        ≡ Transform (transform_at (pos 5) (pos 0) (pos 0)) }
{}

/// A child that is cut off its parent stands at its own 1, as if the parent stood at 0. What a scene hasn't has no value
/// over those of others.
pub fn a_cut_source_gives_its_rest()
    ensures parent { val parent_after_child Viewport (pos 1) (World (object 0)) ≡ Transform (transform_at (pos 1000000) (pos 0) (pos 0)) }
    ensures child { value_over parent_after_child Viewport (pos 1) (val parent_after_child Viewport (pos 1)) (World (object 1))
        ≡ Some (Transform (transform_at (pos 1000000) (pos 0) (pos 0))) }
    ensures missing { value_over alone Viewport (pos 1) (val alone Viewport (pos 1)) (Local (object 9)) ≡ None }
{}

/// A parent's x follows its child in the world. The driver and the child read by reference links, and the others by inner
/// ones. All together make a cycle.
pub fn links_are_read_in_the_order_of_the_operations()
    ensures { scene_arrows parent_after_child
        ≡ reference_link (operation.Driver (anim.Object (object 0)) (Own LocX)) (operation.World (object 1))
        ∷ inner_link (operation.Local (object 0)) (operation.Driver (anim.Object (object 0)) (Own LocX))
        ∷ inner_link (operation.World (object 0)) (operation.Local (object 0))
        ∷ inner_link (operation.World (object 1)) (operation.Local (object 1))
        ∷ reference_link (operation.World (object 1)) (operation.World (object 0)) ∷ [] }
{}

/// There the child's link to its parent is the one that is cut.
pub fn a_cut_link_has_its_operations()
    ensures { cut_links parent_after_child ≡ reference_link (operation.World (object 1)) (operation.World (object 0)) ∷ [] }
{}

/// There the child, whose world transform has number 5, is cut off its parent's, of number 3. If the reference links were kept
/// at first, the parent's would be cut off its local transform. With one number for all operations each link is one of an
/// operation to itself.
pub fn links_are_cut_by_numbers()
    ensures cut { cuts_from nat_eq (map (arrow_map numbered) (inner_links parent_after_child)) (map (arrow_map numbered) (reference_links parent_after_child))
        ≡ record { reader = 5; source = 3; is_reference = true } ∷ [] }
    ensures exchanged { cuts_from nat_eq (map (arrow_map numbered) (reference_links parent_after_child)) (map (arrow_map numbered) (inner_links parent_after_child))
        ≡ record { reader = 3; source = 2; is_reference = false } ∷ [] }
    ensures one_number { map (arrow_map {B = ℕ} (λ (op : OpId). 0)) (inner_links after_itself)
        ≡ record { reader = 0; source = 0; is_reference = false } ∷ record { reader = 0; source = 0; is_reference = false } ∷ [] }
{}

/// The driver of a hand's x follows a driven offset, a channel with a curve, and a centre. A layer with a key reads the time, and
/// one that is bound its bone. A pose ends after its bones, and a geometry after its last modifier.
pub fn an_operation_reads_what_it_needs()
    ensures driver { link_arrows character (operation.Driver (anim.Object body) hand_x)
        ≡ reference_link (operation.Driver (anim.Object body) hand_x) (operation.Driver (anim.Pencil 0) offset_x)
        ∷ inner_link (operation.Driver (anim.Object body) hand_x) (operation.Animation (anim.Object body))
        ∷ reference_link (operation.Driver (anim.Object body) hand_x) (operation.World centre) ∷ [] }
    ensures layer { link_arrows character (operation.Layer 0 1)
        ≡ inner_link (operation.Layer 0 1) operation.Time ∷ inner_link (operation.Layer 0 1) (operation.Animation (anim.Pencil 0)) ∷ [] }
    ensures bound { link_arrows character (operation.Layer 0 0)
        ≡ inner_link (operation.Layer 0 0) (operation.Animation (anim.Pencil 0))
        ∷ inner_link (operation.Layer 0 0) (operation.Driver (anim.Pencil 0) offset_x)
        ∷ reference_link (operation.Layer 0 0) (operation.Bone body 1) ∷ [] }
    ensures pose { link_arrows character (operation.PoseDone body)
        ≡ inner_link (operation.PoseDone body) (operation.Bone body 0) ∷ inner_link (operation.PoseDone body) (operation.Bone body 1) ∷ [] }
    ensures geometry { link_arrows character (operation.GeometryDone sketch)
        ≡ inner_link (operation.GeometryDone sketch) (operation.ModifierOp sketch 2) ∷ [] }
{}

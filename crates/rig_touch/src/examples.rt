//! The operations that edits of small scenes touch, and whether such edits keep all links, each proved by computing it.
#![tactic(auto, unfolding(crate::specs::Touch::touch, crate::specs::KeepsLinks::keeps_links, crate::specs::Shape::shape))]

ghost use Rattle.std.specs.Prelude.{◌≡◌, [], ◌∷◌, codes, pos, None, true, false};
ghost use Rattle.rig_edits.specs.declared.edit.Edit.TheVariants as edit;
ghost use Rattle.rig_edits.specs.declared.edit.Flag.TheVariants.{Switch, Hidden};
ghost use Rattle.rig_edits.specs.declared.edit.IdName.TheVariants as named;
ghost use Rattle.rig_edits.specs.declared.edit.NewKind.TheVariants as new;
ghost use Rattle.rig_edits.specs.Examples.{driver_of, world_x};
ghost use Rattle.rig_scene.specs.declared.action.Interp.TheVariants.{Linear};
ghost use Rattle.rig_scene.specs.declared.channel.Axis.TheVariants.{X, Y};
ghost use Rattle.rig_scene.specs.declared.channel.Channel.TheVariants.{LocX, LocY, LocZ};
ghost use Rattle.rig_scene.specs.declared.driver.DriverKind.TheVariants.{Sum};
ghost use Rattle.rig_scene.specs.declared.id.AnimId.TheVariants as anim;
ghost use Rattle.rig_scene.specs.declared.modifier.Mode.TheVariants.{Viewport};
ghost use Rattle.rig_scene.specs.declared.operation.OpId.TheVariants as op;
ghost use Rattle.rig_scene.specs.declared.path.Path.TheVariants.{Own, Layer};
ghost use Rattle.rig_scene.specs.ExampleCharacter.{character, body, sketch, centre, hand_x, offset_x};
ghost use Rattle.rig_scene.specs.Examples.{object, moving_root, parent_after_child, after_itself};
ghost use Rattle.rig_touch.specs.Examples.{three_drawings, resting_root, point_of};
ghost use Rattle.rig_touch.specs.KeepsLinks.{keeps_links};
ghost use Rattle.rig_touch.specs.Shape.{shape};
ghost use Rattle.rig_touch.specs.Touch.{touch};

/// A child's number is in its local transform. A name that no object has touches nothing.
pub fn a_number_is_in_the_local_transform()
    ensures child { touch moving_root (edit.SetValue (named.Object (codes "Child")) (Own LocY) (pos 3)) ≡ op.Local (object 1) ∷ [] }
    ensures nobody { touch moving_root (edit.SetValue (named.Object (codes "Nobody")) (Own LocY) (pos 3)) ≡ [] }
{}

/// The number of the second bone is in that bone, though a driver takes its place, and that of a layer in the layer. An object that
/// is no armature has no bones.
pub fn a_number_is_in_its_bone_or_layer()
    ensures bone { touch character (edit.SetValue (named.Object (codes "B")) hand_x (pos 3)) ≡ op.Bone body 1 ∷ [] }
    ensures layer { touch character (edit.SetValue (named.Pencil (codes "P")) (Layer (codes "k") Y) (pos 3)) ≡ op.Layer 0 1 ∷ [] }
    ensures no_armature { touch character (edit.SetValue (named.Object (codes "S")) hand_x (pos 3)) ≡ [] }
{}

/// Drivers that read a number as a property are touched in the order of the scene's list: a driver of the hand by the offset of a layer,
/// two drivers by one number, and a driver of a number by itself. One that reads a transform only follows along its link.
pub fn a_driver_reads_a_property()
    ensures driven { touch character (edit.SetValue (named.Pencil (codes "P")) offset_x (pos 3))
        ≡ op.Layer 0 0 ∷ op.Driver (anim.Object body) hand_x ∷ [] }
    ensures two { touch character (edit.SetValue (named.Object (codes "S")) (Own LocX) (pos 3))
        ≡ op.Local sketch ∷ op.Driver (anim.Object centre) (Own LocZ) ∷ op.Driver (anim.Object centre) (Own LocX) ∷ [] }
    ensures itself { touch after_itself (edit.SetValue (named.Object (codes "A")) (Own LocX) (pos 3))
        ≡ op.Local (object 0) ∷ op.Driver (anim.Object (object 0)) (Own LocX) ∷ [] }
    ensures transform { touch parent_after_child (edit.SetValue (named.Object (codes "B")) (Own LocX) (pos 3)) ≡ op.Local (object 1) ∷ [] }
{}

/// A key is in the animation of whatever uses its action: an object, two objects, or a pencil.
pub fn a_key_is_in_each_animation_of_its_action()
    ensures root { touch moving_root (edit.SetKey (codes "Move") (Own LocX) (pos 5) (pos 7) Linear) ≡ op.Animation (anim.Object (object 0)) ∷ [] }
    ensures two { touch character (edit.DeleteKey (codes "m") (Own LocX) (pos 1))
        ≡ op.Animation (anim.Object body) ∷ op.Animation (anim.Object centre) ∷ [] }
    ensures pencil { touch character (edit.SetKey (codes "n") (Layer (codes "k") X) (pos 5) (pos 7) Linear)
        ≡ op.Animation (anim.Pencil 0) ∷ [] }
{}

/// A switch is in its modifier, counted from 1. Whether a layer is hidden is in the geometry of each object of its pencil.
pub fn a_flag_is_in_a_modifier_or_a_geometry()
    ensures switch { touch character (edit.SetFlag (Switch (codes "S") (codes "a") Viewport) false) ≡ op.ModifierOp sketch 2 ∷ [] }
    ensures hidden { touch character (edit.SetFlag (Hidden (codes "P") (codes "k")) true) ≡ op.Geometry sketch ∷ [] }
{}

/// Of three drawings, the first layer shows the first and then the second, and the other layer the second. No layer shows the third.
pub fn a_point_is_in_the_layers_that_show_its_drawing()
    ensures first { touch three_drawings (point_of (pos 0)) ≡ op.Layer 0 0 ∷ [] }
    ensures second { touch three_drawings (point_of (pos 1)) ≡ op.Layer 0 0 ∷ op.Layer 0 1 ∷ [] }
    ensures third { touch three_drawings (point_of (pos 2)) ≡ [] }
{}

/// A key of a layer is in that layer.
pub fn a_layer_key_is_in_its_layer()
    ensures set { touch character (edit.SetLayerKey (codes "P") (codes "b") (pos 4) (pos 0)) ≡ op.Layer 0 0 ∷ [] }
    ensures deleted { touch character (edit.DeleteLayerKey (codes "P") (codes "k") (pos 1)) ≡ op.Layer 0 1 ∷ [] }
{}

/// What carries an object is in its world transform, and what drives a channel in its driver. A driver that is taken out touches nothing.
pub fn a_parent_is_in_the_world_transform_and_a_driver_in_its_own_operation()
    ensures parent { touch moving_root (edit.SetParent (codes "Child") None) ≡ op.World (object 1) ∷ [] }
    ensures driver { touch moving_root (edit.SetDriver (named.Object (codes "Root")) (Own LocZ) (driver_of Sum (world_x (codes "Child") ∷ [])))
        ≡ op.Driver (anim.Object (object 0)) (Own LocZ) ∷ [] }
    ensures cleared { touch after_itself (edit.ClearDriver (named.Object (codes "A")) (Own LocX)) ≡ [] }
{}

/// Without the first of two modifiers, both numbers mean something else. Without the second only its own does.
pub fn a_removed_modifier_shifts_those_above()
    ensures first { touch character (edit.RemoveModifier (codes "S") (codes "m")) ≡ op.ModifierOp sketch 1 ∷ op.ModifierOp sketch 2 ∷ [] }
    ensures second { touch character (edit.RemoveModifier (codes "S") (codes "a")) ≡ op.ModifierOp sketch 2 ∷ [] }
{}

/// A new object touches nothing, and neither does one that is taken out.
pub fn an_object_that_comes_or_goes_touches_nothing()
    ensures added { touch moving_root (edit.AddObject (codes "New") new.Empty) ≡ [] }
    ensures removed { touch moving_root (edit.RemoveObject (codes "Child")) ≡ [] }
{}

/// An edit of a number, a key, a switch or a point keeps all links, also where its name means nothing. A new parent and a removed modifier
/// may change them.
pub fn edits_of_values_keep_all_links()
    ensures number { keeps_links moving_root (edit.SetValue (named.Object (codes "Nobody")) (Own LocY) (pos 3)) ≡ true }
    ensures key { keeps_links character (edit.DeleteKey (codes "m") (Own LocX) (pos 1)) ≡ true }
    ensures hidden { keeps_links character (edit.SetFlag (Hidden (codes "P") (codes "k")) true) ≡ true }
    ensures point { keeps_links three_drawings (point_of (pos 0)) ≡ true }
    ensures parent { keeps_links moving_root (edit.SetParent (codes "Child") None) ≡ false }
    ensures modifier { keeps_links character (edit.RemoveModifier (codes "S") (codes "m")) ≡ false }
{}

/// A layer needs the time from its first key on, until its last one is deleted.
pub fn a_layer_with_keys_needs_the_time()
    ensures first { keeps_links character (edit.SetLayerKey (codes "P") (codes "b") (pos 4) (pos 0)) ≡ false }
    ensures second { keeps_links character (edit.SetLayerKey (codes "P") (codes "k") (pos 4) (pos 0)) ≡ true }
    ensures last { keeps_links character (edit.DeleteLayerKey (codes "P") (codes "k") (pos 1)) ≡ false }
    ensures one_of_two { keeps_links three_drawings (edit.DeleteLayerKey (codes "P") (codes "a") (pos 1)) ≡ true }
{}

/// The keys of the root and the place of the child aren't in the shape of their scene.
pub fn a_shape_has_no_keys_and_no_numbers()
    ensures same { shape moving_root ≡ shape (resting_root (pos 7)) }
{}

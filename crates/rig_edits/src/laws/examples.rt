//! Worked examples of the definitions, each proved by computing both sides.
ghost use Rattle.std.specs.Prelude.{◌≡◌, [], ◌∷◌, length, map, codes, pos, true, false, None, Some};
ghost use Rattle.std.specs.List.{range_with_len};
ghost use Rattle.rig_scene.specs.declared.action.Interp.TheVariants.{Constant, Linear};
ghost use Rattle.rig_scene.specs.declared.channel.Axis.TheVariants.{X};
ghost use Rattle.rig_scene.specs.declared.channel.Channel.TheVariants.{LocX, LocY, LocZ};
ghost use Rattle.rig_scene.specs.declared.driver.DriverKind.TheVariants.{Sum, Max};
ghost use Rattle.rig_scene.specs.declared.object.Kind.TheVariants as kind;
ghost use Rattle.rig_scene.specs.declared.path.Path.TheVariants.{Own, Layer};
ghost use Rattle.rig_scene.specs.Examples.{object, linear_key, scene_of, moving_root, after_itself};
ghost use Rattle.rig_scene.specs.ExampleCharacter.{character, modifier};
ghost use Rattle.rig_scene.specs.ExampleConditions.{copies, of_modifiers};
ghost use Rattle.rig_edits.specs.declared.cause.EditCause.TheVariants.{UnknownId, WrongKind, UnknownPath, UnknownPart, OutOfRange};
ghost use Rattle.rig_edits.specs.declared.cause.EditCause.TheVariants.{Duplicate, Absent, InUse, Full};
ghost use Rattle.rig_edits.specs.declared.edit.Edit.TheVariants.{SetValue, SetKey, DeleteKey, SetLayerKey};
ghost use Rattle.rig_edits.specs.declared.edit.Edit.TheVariants.{SetParent, SetDriver, ClearDriver, AddObject, RemoveObject, AddModifier};
ghost use Rattle.rig_edits.specs.declared.edit.IdName.TheVariants as named;
ghost use Rattle.rig_edits.specs.declared.edit.NewKind.TheVariants as new;
ghost use Rattle.rig_edits.specs.declared.edit.NewVariable.TheVariants.{Property};
ghost use Rattle.rig_edits.specs.Conditions.{first_cause};
ghost use Rattle.rig_edits.specs.Edited.{edited};
ghost use Rattle.rig_edits.specs.Examples.{own_parent, bone_named, driver_of, world_x, bone_x, pose_x, one_copy};
ghost use Rattle.rig_edits.specs.Examples.{kinds_of, keys_of, frames_of};

/// An object is in use by another's parent, mirror, bound layer or driver. Its own parent and its own drivers don't count.
pub fn objects_are_removed_where_nothing_else_needs_them()
    ensures unknown { first_cause moving_root (RemoveObject (codes "Nobody")) ≡ Some UnknownId }
    ensures parent { first_cause moving_root (RemoveObject (codes "Root")) ≡ Some InUse }
    ensures child { first_cause moving_root (RemoveObject (codes "Child")) ≡ None }
    ensures centre { first_cause character (RemoveObject (codes "C")) ≡ Some InUse }
    ensures carrier { first_cause character (RemoveObject (codes "B")) ≡ Some InUse }
    ensures own_driver { first_cause after_itself (RemoveObject (codes "A")) ≡ None }
    ensures own_parent { first_cause own_parent (RemoveObject (codes "A")) ≡ None }
{}

/// A removed object takes its drivers with it, and its serial isn't used again.
pub fn a_removed_object_takes_its_drivers_with_it()
    ensures objects { (edited after_itself (RemoveObject (codes "A"))).objects ≡ [] }
    ensures drivers { (edited after_itself (RemoveObject (codes "A"))).drivers ≡ [] }
    ensures next { (edited after_itself (RemoveObject (codes "A"))).next ≡ 3 }
    ensures others { map (λ o. o.name) (edited moving_root (RemoveObject (codes "Child"))).objects ≡ codes "Root" ∷ [] }
{}

/// A new object stands behind all others, at rest, with the next serial; an armature object has a pose for each bone.
pub fn a_new_object_has_the_next_serial()
    ensures next { (edited moving_root (AddObject (codes "New") new.Empty)).next ≡ 4 }
    ensures ids { map (λ o. o.id) (edited moving_root (AddObject (codes "New") new.Empty)).objects ≡ object 0 ∷ object 1 ∷ object 3 ∷ [] }
    ensures poses { map (λ o. o.kind) (edited (scene_of [] [] []) (AddObject (codes "New") new.Empty)).objects ≡ kind.Empty ∷ [] }
    ensures duplicate { first_cause moving_root (AddObject (codes "Root") new.Empty) ≡ Some Duplicate }
    ensures unknown { first_cause moving_root (AddObject (codes "New") (new.Armature (codes "A"))) ≡ Some UnknownId }
    ensures armature { first_cause character (AddObject (codes "New") (new.Armature (codes "A"))) ≡ None }
{}

/// A driver takes the place of the one of its channel. One of another channel stands behind all others.
pub fn a_driver_keeps_its_place()
    ensures replaced { kinds_of (edited character
        (SetDriver (named.Object (codes "C")) (Own LocZ) (driver_of Max (world_x (codes "C") ∷ [])))) ≡ Sum ∷ Max ∷ Sum ∷ Sum ∷ [] }
    ensures added { kinds_of (edited character
        (SetDriver (named.Object (codes "C")) (Own LocY) (driver_of Max (world_x (codes "C") ∷ [])))) ≡ Sum ∷ Sum ∷ Sum ∷ Sum ∷ Max ∷ [] }
    ensures cleared { length (edited character (ClearDriver (named.Object (codes "C")) (Own LocZ))).drivers ≡ 3 }
    ensures absent { first_cause character (ClearDriver (named.Object (codes "C")) (Own LocY)) ≡ Some Absent }
{}

/// A key takes the place of the one at its frame, with its own interpolation; one at another frame stands between its neighbours.
pub fn a_key_stands_at_its_frame()
    ensures replaced { keys_of (edited moving_root (SetKey (codes "Move") (Own LocX) (pos 11) (pos 7) Constant))
        ≡ ((linear_key (pos 1) (pos 0) ∷ record { frame = pos 11; value = pos 7; interp = Constant } ∷ []) ∷ []) ∷ [] }
    ensures between { frames_of (edited moving_root (SetKey (codes "Move") (Own LocX) (pos 6) (pos 7) Linear))
        ≡ ((pos 1 ∷ pos 6 ∷ pos 11 ∷ []) ∷ []) ∷ [] }
    ensures deleted { frames_of (edited moving_root (DeleteKey (codes "Move") (Own LocX) (pos 1))) ≡ ((pos 11 ∷ []) ∷ []) ∷ [] }
    ensures absent { first_cause moving_root (DeleteKey (codes "Move") (Own LocX) (pos 2)) ≡ Some Absent }
{}

/// The first cause in the order of the codes is answered, whichever is met first.
pub fn the_first_cause_is_answered()
    ensures last_variable { first_cause character (SetDriver (named.Object (codes "C")) (Layer (codes "b") X)
        (driver_of Sum (Property (named.Object (codes "Nobody")) (Own LocX) ∷ []))) ≡ Some UnknownId }
    ensures wrong_path { first_cause character (SetDriver (named.Object (codes "C")) (Layer (codes "b") X)
        (driver_of Sum (pose_x (codes "B") (codes "x") ∷ []))) ≡ Some WrongKind }
    ensures unknown_path { first_cause character (SetDriver (named.Object (codes "C")) (Own LocX)
        (driver_of Sum (bone_x (codes "B") (codes "x") ∷ pose_x (codes "B") (codes "x") ∷ []))) ≡ Some UnknownPath }
    ensures curve_before_frame { first_cause moving_root (SetKey (codes "Move") (Own LocY) (pos 1000001) (pos 0) Linear)
        ≡ Some UnknownPart }
    ensures bone_of_an_empty { first_cause character (SetParent (codes "S") (bone_named (codes "C") (codes "h"))) ≡ Some WrongKind }
    ensures no_such_bone { first_cause character (SetParent (codes "S") (bone_named (codes "B") (codes "x"))) ≡ Some UnknownPart }
{}

/// Values go to 10^12 millionths; a stack of 8 modifiers is full, whatever it is given; and a drawing is one of the pencil's.
pub fn limits_are_kept()
    ensures highest { first_cause moving_root (SetValue (named.Object (codes "Root")) (Own LocX) (pos 1000000000000)) ≡ None }
    ensures too_high { first_cause moving_root (SetValue (named.Object (codes "Root")) (Own LocX) (pos 1000000000001)) ≡ Some OutOfRange }
    ensures eighth { first_cause (of_modifiers (map (λ n. modifier (n ∷ []) (copies 1)) (range_with_len 1 7)))
        (AddModifier (codes "B") (codes "x") true true one_copy) ≡ None }
    ensures ninth { first_cause (of_modifiers (map (λ n. modifier (n ∷ []) (copies 1)) (range_with_len 1 8)))
        (AddModifier (codes "B") (codes "x") true true one_copy) ≡ Some (Full 8 8) }
    ensures drawing { first_cause character (SetLayerKey (codes "P") (codes "k") (pos 1) (pos 1)) ≡ Some UnknownPart }
    ensures layer_key { first_cause character (SetLayerKey (codes "P") (codes "k") (pos 1) (pos 0)) ≡ None }
{}

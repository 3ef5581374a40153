//! What holds of touched operations, and of edits that keep all links, as laws of the definitions.
ghost use Rattle.std.specs.Prelude.{◌≡◌, List, None, IsTrue, Contains, ℤ};
ghost use Rattle.rig_edits.specs.declared.edit.Edit.{Edit};
ghost use Rattle.rig_edits.specs.Conditions.{first_cause};
ghost use Rattle.rig_edits.specs.Edited.{edited};
ghost use Rattle.rig_laws.specs.Kernel.{kernel};
ghost use Rattle.rig_laws.specs.Output.{Output};
ghost use Rattle.rig_scene.specs.declared.modifier.Mode.{Mode};
ghost use Rattle.rig_scene.specs.declared.operation.OpId.{OpId};
ghost use Rattle.rig_scene.specs.Cut.{cuts};
ghost use Rattle.rig_scene.specs.Operations.{operations, ins};
ghost use Rattle.rig_scene.specs.Scene.{SceneRecord};
ghost use Rattle.rig_scene.specs.WellFormed.{is_scene};
ghost use Rattle.rig_touch.specs.KeepsLinks.{keeps_links};
ghost use Rattle.rig_touch.specs.Shape.{shape};
ghost use Rattle.rig_touch.specs.Touch.{touch};

/// An accepted edit leads from one scene to another. An operation of both that it doesn't touch, and whose in-links it leaves as they
/// were, has the same value over the same inputs in both, in either mode and at each frame.
pub fn an_untouched_operation_is_left_as_it_was()
    ensures { (s : SceneRecord) → IsTrue (is_scene s) → (edit : Edit) → first_cause s edit ≡ None → (op : OpId) →
        Contains (operations s) op → Contains (operations (edited s edit)) op → (Contains (touch s edit) op → ⊥) →
        ins s op ≡ ins (edited s edit) op → (mode : Mode) (frame : ℤ) (inputs : List Output) →
        kernel s mode frame op inputs ≡ kernel (edited s edit) mode frame op inputs }
{}

/// An edit that keeps all links leaves a scene with the operations, the in-links and the cut reads that it had.
pub fn an_edit_may_keep_all_links()
    ensures operations { (s : SceneRecord) → IsTrue (is_scene s) → (edit : Edit) → IsTrue (keeps_links s edit) →
        operations (edited s edit) ≡ operations s }
    ensures in_links { (s : SceneRecord) → IsTrue (is_scene s) → (edit : Edit) → IsTrue (keeps_links s edit) → (op : OpId) →
        ins (edited s edit) op ≡ ins s op }
    ensures cuts { (s : SceneRecord) → IsTrue (is_scene s) → (edit : Edit) → IsTrue (keeps_links s edit) → cuts (edited s edit) ≡ cuts s }
{}

/// An edit that keeps all links leaves the shape of its scene, which has all operations, in-links and cut reads of the scene.
pub fn an_edit_may_keep_the_shape()
    ensures shape { (s : SceneRecord) → IsTrue (is_scene s) → (edit : Edit) → IsTrue (keeps_links s edit) →
        shape (edited s edit) ≡ shape s }
    ensures operations { (s : SceneRecord) → operations (shape s) ≡ operations s }
    ensures in_links { (s : SceneRecord) (op : OpId) → ins (shape s) op ≡ ins s op }
    ensures cuts { (s : SceneRecord) → cuts (shape s) ≡ cuts s }
{}

//! Laws of edits: functions with an empty body whose contracts say what holds of the definitions.
ghost use Rattle.std.specs.Prelude.{◌≡◌, None, IsTrue};
ghost use Rattle.rig_scene.specs.Scene.{SceneRecord};
ghost use Rattle.rig_scene.specs.WellFormed.{is_scene};
ghost use Rattle.rig_edits.specs.declared.edit.Edit.{Edit};
ghost use Rattle.rig_edits.specs.Conditions.{first_cause, IsEdit};
ghost use Rattle.rig_edits.specs.Edited.{edited};

pub mod examples;

/// An edit that no cause is against leaves a scene: every condition of the type is kept.
pub fn an_accepted_edit_leaves_a_scene()
    ensures { (s : SceneRecord) (edit : Edit) → IsEdit edit → IsTrue (is_scene s) → first_cause s edit ≡ None
        → IsTrue (is_scene (edited s edit)) }
{}

//! The original number of a channel set.
ghost use Rattle.rig_edits.specs.declared.edit.Edit.TheVariants.{SetValue};
ghost use Rattle.rig_edits.specs.Answers.{Applies};

use crate::cause::EditStop;
use crate::edit::IdName;
use crate::slot::{Slot, set_offset, set_own, set_pose, slot_of};
use crate::whole::value_of;
use rig_scene::{Path, Scene};

/// Sets the original number of a channel.
pub(crate) fn set_value(
    scene: &mut Scene,
    id: &IdName,
    path: &Path,
    value: i64,
) -> Result<(), EditStop>
    ensures { Applies result scene.old scene.new (SetValue id.now path.now value) }
{
    let slot = slot_of(scene, id, path)?;
    let value = value_of(value)?;
    match slot {
        Slot::Own { object, channel } => set_own(&mut scene.objects, object, channel, value),
        Slot::Pose {
            object,
            bone,
            channel,
        } => set_pose(&mut scene.objects, object, bone, channel, value),
        Slot::Layer {
            pencil,
            layer,
            axis,
        } => set_offset(&mut scene.pencils, pencil, layer, axis, value),
    }
    Ok(())
}

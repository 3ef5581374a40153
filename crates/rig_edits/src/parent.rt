//! What carries an object.
ghost use Rattle.std.specs.Prelude.{◌≡◌, ◌<◌, length, Some};
ghost use Rattle.std.specs.Option.{option_or};
ghost use Rattle.rig_edits.specs.declared.cause.EditCause.TheVariants.{UnknownId, WrongKind, UnknownPart};
ghost use Rattle.rig_edits.specs.declared.edit.Edit.TheVariants.{SetParent};
ghost use Rattle.rig_edits.specs.Answers.{Applies};
ghost use Rattle.rig_edits.specs.Conditions.{lacks_object, has_no_bones, lacks_bone, when};
ghost use Rattle.rig_edits.specs.Edited.{parent_of};
ghost use Rattle.rig_edits.specs.Named.{update_at};
ghost use Rattle.rig_edits.specs.Steps.{Finds};

use crate::cause::{EditCause, EditStop};
use crate::edit::NewParent;
use crate::find::object_index;
use crate::slot::bone_of;
use rig_io::List;
use rig_scene::{Name, Object, Parent, Scene};

/// Sets what carries an object, or has nothing carry it.
pub(crate) fn set_parent(
    scene: &mut Scene,
    object: &Name,
    parent: &Option<NewParent>,
) -> Result<(), EditStop>
    ensures { Applies result scene.old scene.new (SetParent object.now parent.now) }
{
    let object = object_index(scene, object)?;
    let parent = match parent {
        None => None,
        Some(parent) => Some(parent_of(scene, parent)?),
    };
    carry(&mut scene.objects, object, parent);
    Ok(())
}

/// The object that is named, and its bone where one is named.
fn parent_of(scene: &Scene, parent: &NewParent) -> Result<Parent, EditCause>
    ensures { Finds result
        (option_or (when UnknownId (lacks_object scene.now parent.now.object))
        (option_or (when WrongKind (has_no_bones scene.now parent.now.object parent.now.bone))
        (when UnknownPart (lacks_bone scene.now parent.now.object parent.now.bone))))
        (λ found. parent_of scene.now parent.now ≡ Some found) }
{
    let index = object_index(scene, &parent.object)?;
    let object = scene.objects.get(index).id;
    let bone = match &parent.bone {
        None => None,
        Some(bone) => Some(bone_of(scene, index, bone, EditCause::UnknownPart)? as u32),
    };
    Ok(Parent { object, bone })
}

fn carry(objects: &mut List<Object>, object: usize, parent: Option<Parent>)
    requires { object < length objects.old }
    ensures { objects.new ≡ update_at (λ o. record o { parent = parent }) object objects.old }
{
    objects.get_mut(object).parent = parent;
}

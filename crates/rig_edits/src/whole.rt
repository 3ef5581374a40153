//! Whole numbers of an edit as the numbers of a scene, where they are in range.
ghost use Rattle.std.specs.Prelude.{◌≡◌, not, pos, int_le, ◌&&◌};
ghost use Rattle.rig_scene.specs.declared.limits.TheConstants.{MAX_ARRAY_COUNT};
ghost use Rattle.rig_scene.specs.WellFormed.{is_frame};
ghost use Rattle.rig_edits.specs.declared.cause.EditCause.TheVariants.{OutOfRange};
ghost use Rattle.rig_edits.specs.Conditions.{is_value, is_location, when};
ghost use Rattle.rig_edits.specs.Edited.{natural, v3_of};
ghost use Rattle.rig_edits.specs.Steps.{Finds};

use crate::cause::EditCause;
use crate::edit::Whole3;
use rig_fixed::{Fx, LIMIT, V3};
use rig_scene::limits::{MAX_ARRAY_COUNT, MAX_FRAME, MIN_FRAME};

/// A value in millionths.
pub(crate) fn value_of(value: i64) -> Result<Fx, EditCause>
    ensures { Finds result (when OutOfRange (not (is_value value))) (λ x. x ≡ value) }
{
    if -LIMIT <= value && value <= LIMIT {
        Ok(Fx::new(value))
    } else {
        Err(EditCause::OutOfRange)
    }
}

/// A location in millionths.
pub(crate) fn location_of(v: &Whole3) -> Result<V3, EditCause>
    ensures { Finds result (when OutOfRange (not (is_location v.now))) (λ location. location ≡ v3_of v.now) }
{
    let x = value_of(v.x)?;
    let y = value_of(v.y)?;
    let z = value_of(v.z)?;
    Ok(V3 { x, y, z })
}

/// A frame.
pub(crate) fn frame_of(frame: i64) -> Result<i32, EditCause>
    ensures { Finds result (when OutOfRange (not (is_frame frame))) (λ f. f ≡ frame) }
{
    if i64::from(MIN_FRAME) <= frame && frame <= i64::from(MAX_FRAME) {
        Ok(frame as i32)
    } else {
        Err(EditCause::OutOfRange)
    }
}

/// The count of an array: how many copies it makes.
pub(crate) fn count_of(count: i64) -> Result<u32, EditCause>
    ensures { Finds result (when OutOfRange (not (int_le (pos 1) count && int_le count (pos MAX_ARRAY_COUNT)))) (λ n. n ≡ natural count) }
{
    if 1 <= count && count <= MAX_ARRAY_COUNT as i64 {
        Ok(count as u32)
    } else {
        Err(EditCause::OutOfRange)
    }
}

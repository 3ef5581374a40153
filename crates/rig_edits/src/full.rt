//! Whether there is room for more.
ghost use Rattle.std.specs.Prelude.{◌≤◌};
ghost use Rattle.rig_scene.specs.declared.limits.TheConstants.{MAX_KEYS};
ghost use Rattle.rig_edits.specs.Conditions.{full_at};
ghost use Rattle.rig_edits.specs.Steps.{Finds};

use crate::cause::EditCause;

/// Whether so many more beside a count are within a limit.
pub(crate) fn room_for(count: usize, more: usize, limit: usize) -> Result<(), EditCause>
    requires count { count ≤ limit }
    requires more { more ≤ MAX_KEYS }
    requires limit { limit ≤ MAX_KEYS }
    ensures { Finds result (full_at count more limit) (λ _. Unit {0}) }
{
    if count + more <= limit {
        Ok(())
    } else {
        Err(EditCause::Full {
            count: count as u32,
            limit: limit as u32,
        })
    }
}

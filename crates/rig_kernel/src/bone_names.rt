//! The bones of an armature by name, each found with no walk over the others.
ghost use Rattle.std.specs.Prelude.{◌≡◌, ◌<◌, ◌^◌, ℕ, List, length, position, IfOk, OnOk};
ghost use Rattle.indexmap.specs.IndexMap.{get};
ghost use Rattle.rig_scene.specs.Text.{same_text};
ghost use Rattle.rig_kernel.specs.ChannelCurves.{found_or};

use indexmap::IndexMap;
use rig_io::NoMemory;
use rig_scene::{Name, RestBone};
use std::alloc::Global;

/// The index of the first bone of each name. It takes time by the number of bones.
pub(crate) fn bone_names(alloc: Global, bones: &[RestBone]) -> Result<IndexMap<Name, u32>, NoMemory>
    requires { length bones.now < 2 ^ 32 }
    ensures { IfOk result (λ names. (name : List ℕ) → get same_text names name ≡ position (λ b. same_text b.name name) bones.now) }
{
    let mut names = IndexMap::new(alloc);
    for index in 0..bones.len() {
        add(&mut names, &bones[index].name, index as u32)?;
    }
    Ok(names)
}

// Adds a name, where it isn't there yet.
fn add(names: &mut IndexMap<Name, u32>, name: &Name, index: u32) -> Result<(), NoMemory>
    ensures { OnOk result ((q : List ℕ) → get same_text names.new q ≡ found_or (get same_text names.old q) (same_text name.now q) index) }
{
    if names.get(name).is_none() {
        names.insert(name.copy()?, index)?;
    }
    Ok(())
}

//! The curves of an action by what they animate, each found with no walk over the others.
ghost use Rattle.std.specs.Prelude.{◌≡◌, ◌<◌, ◌^◌, Some, None, length, map, position, IfOk, OnOk};
ghost use Rattle.indexmap.specs.IndexMap.{Updates};
ghost use Rattle.rig_scene.specs.declared.path.Path.{Path};
ghost use Rattle.rig_scene.specs.Path.{same_path};
ghost use Rattle.rig_scene.specs.Text.{same_text};
ghost use Rattle.rig_kernel.specs.ChannelCurves.{found_or};
ghost use Rattle.rig_kernel.specs.Tables.{curve_in, AreCurvesOf};

use crate::channel_curves::{AxisCurves, ChannelCurves};
use indexmap::IndexMap;
use rig_io::NoMemory;
use rig_scene::{Curve, Name, Path};
use std::alloc::Global;

/// The index of the first curve of each path of an action: those of the object's own channels, and by the name of the bone or of
/// the layer.
#[derive(Drop)]
pub struct ActionCurves {
    pub(crate) own: ChannelCurves,
    pub(crate) bones: IndexMap<Name, ChannelCurves>,
    pub(crate) layers: IndexMap<Name, AxisCurves>,
}

/// The curves of an action by what they animate. It takes time by their number.
pub(crate) fn action_curves(alloc: Global, curves: &[Curve]) -> Result<ActionCurves, NoMemory>
    requires { length curves.now < 2 ^ 32 }
    ensures { IfOk result (λ table. AreCurvesOf table (map (λ c. c.path) curves.now)) }
{
    let mut table = ActionCurves {
        own: ChannelCurves::none(),
        bones: IndexMap::new(alloc),
        layers: IndexMap::new(alloc),
    };
    for index in 0..curves.len() {
        add(&mut table, &curves[index].path, index as u32)?;
    }
    Ok(table)
}

// Adds the curve of a path, where there is none yet.
fn add(table: &mut ActionCurves, path: &Path, index: u32) -> Result<(), NoMemory>
    ensures { OnOk result ((p : Path) → curve_in table.new p ≡ found_or (curve_in table.old p) (same_path path.now p) index) }
{
    match path {
        Path::Own(channel) => table.own = table.own.with(*channel, index),
        Path::Bone(name, channel) => {
            let curves = table
                .bones
                .get(name)
                .copied()
                .unwrap_or(ChannelCurves::none());
            set(&mut table.bones, name, curves.with(*channel, index))?;
        }
        Path::Layer(name, axis) => {
            let curves = table
                .layers
                .get(name)
                .copied()
                .unwrap_or(AxisCurves::none());
            set(&mut table.layers, name, curves.with(*axis, index))?;
        }
    }
    Ok(())
}

// Gives a name a value.
fn set<T: Drop>(values: &mut IndexMap<Name, T>, name: &Name, value: T) -> Result<(), NoMemory>
    ensures { OnOk result (Updates same_text values.old values.new name.now (Some value)) }
{
    if let Some(place) = values.get_mut(name) {
        *place = value;
    } else {
        values.insert(name.copy()?, value)?;
    }
    Ok(())
}

//! What evaluation looks up by table, so that no name is walked for at each frame.
ghost use Rattle.std.specs.Prelude.{◌≡◌, ◌<◌, ◌^◌, Some, length, map, slice_get, option_map, option_and_then, IfSome, IfNone, IfOk, OnOk, OnErr, IsSome, IsTrue};
ghost use Rattle.std.specs.List.{All, AllZip, Contains};
ghost use Rattle.std.specs.Option.{option_copied};
ghost use Rattle.rig_scene.specs.declared.channel.Axis.{Axis};
ghost use Rattle.rig_scene.specs.declared.channel.Channel.{Channel};
ghost use Rattle.rig_scene.specs.declared.path.Path.TheVariants.{Own, Bone, Layer};
ghost use Rattle.indexmap.specs.IndexMap.{get};
ghost use Rattle.rig_scene.specs.Facts.{have_earlier_parents};
ghost use Rattle.rig_scene.specs.Text.{same_text};
ghost use Rattle.rig_kernel.specs.ChannelCurves.{channel_curve, axis_curve};
ghost use Rattle.rig_kernel.specs.Tables.{TableParts, table_parts, curve_at, rest_at, bone_number_at};
ghost use Rattle.rig_kernel.specs.Tables.{AreCurvesOf, AreBonesOf, AreNamesOf, AreTables};

use crate::action_curves::{ActionCurves, action_curves};
use crate::bone_names::bone_names;
use crate::bones_at_rest::{BoneAtRest, bones_at_rest};
use crate::channel_curves::{AxisCurves, ChannelCurves};
use crate::driver_index::DriverIndex;
use indexmap::IndexMap;
use rig_fixed::Xform;
use rig_io::{List, NoMemory};
use rig_scene::{Action, ArmatureData, Channel, Name, OpId, Scene};
use std::alloc::Global;

/// What evaluation looks up by table: the curves of each action by what they animate, the bones of each armature at rest and by name,
/// and the drivers by their operations. Edits of drivers alone change any of it ([`update_drivers`](SceneTables::update_drivers)).
#[derive(Drop)]
pub struct SceneTables {
    pub(crate) actions: List<ActionCurves>,
    pub(crate) armatures: List<List<BoneAtRest>>,
    pub(crate) bone_names: List<IndexMap<Name, u32>>,
    pub(crate) drivers: DriverIndex,
}

impl SceneTables {
    /// The tables of a scene. It takes time by the number of its curves, bones and drivers.
    ///
    /// # Errors
    ///
    /// [`NoMemory`] where memory is refused.
    pub fn new(alloc: Global, scene: &Scene) -> Result<SceneTables, NoMemory>
        ensures { IfOk result (λ tables. AreTables tables (table_parts scene.now)) }
    {
        Ok(SceneTables {
            actions: curve_tables(alloc, scene.actions.as_slice())?,
            armatures: rest_tables(alloc, scene.armatures.as_slice())?,
            bone_names: name_tables(alloc, scene.armatures.as_slice())?,
            drivers: DriverIndex::new(alloc, scene)?,
        })
    }

    /// The index of an action's curve for an object's own channel.
    pub fn own_curve(&self, action: u32, channel: Channel) -> Option<u32>
        ensures { result ≡ curve_at self.now action (Own channel) }
    {
        self.actions
            .as_slice()
            .get(action as usize)?
            .own
            .get(channel)
    }

    /// The indices of an action's curves for the channels of the bone of a name. It takes one look-up by hash.
    pub fn bone_curves(&self, action: u32, bone: &Name) -> Option<&ChannelCurves>
        ensures { (channel : Channel) → option_and_then (λ c. channel_curve c channel) (option_copied result)
            ≡ curve_at self.now action (Bone bone.now channel) }
    {
        named(&self.actions.as_slice().get(action as usize)?.bones, bone)
    }

    /// The indices of an action's curves for the axes of the layer of a name. It takes one look-up by hash.
    pub fn layer_curves(&self, action: u32, layer: &Name) -> Option<&AxisCurves>
        ensures { (axis : Axis) → option_and_then (λ c. axis_curve c axis) (option_copied result)
            ≡ curve_at self.now action (Layer layer.now axis) }
    {
        named(&self.actions.as_slice().get(action as usize)?.layers, layer)
    }

    /// The rest of a bone of an armature, relative to its parent bone.
    pub fn rest(&self, armature: u32, bone: u32) -> Xform
        requires { IsSome (rest_at self.now armature bone) }
        ensures { option_map (λ b. b.rest) (rest_at self.now armature bone) ≡ Some result }
    {
        self.armatures
            .get(armature as usize)
            .get(bone as usize)
            .rest
    }

    /// The rest of a bone of an armature in the armature's space.
    pub fn rest_chain(&self, armature: u32, bone: u32) -> Xform
        requires { IsSome (rest_at self.now armature bone) }
        ensures { option_map (λ b. b.chain) (rest_at self.now armature bone) ≡ Some result }
    {
        self.armatures
            .get(armature as usize)
            .get(bone as usize)
            .chain
    }

    /// The index of the bone of a name in an armature. It takes one look-up by hash.
    pub fn bone_number(&self, armature: u32, name: &Name) -> Option<u32>
        ensures { result ≡ bone_number_at self.now armature name.now }
    {
        self.bone_names
            .as_slice()
            .get(armature as usize)?
            .get(name)
            .copied()
    }

    /// The index of the driver of an operation in the scene's list.
    pub fn driver(&self, op: &OpId) -> Option<u32>
        ensures some { IfSome result (λ i. slice_get self.now.drivers i ≡ Some op.now) }
        ensures none { IfNone result (Contains self.now.drivers op.now → ⊥) }
    {
        self.drivers.number(op)
    }

    /// Brings the tables up to date after an edit of drivers.
    ///
    /// # Errors
    ///
    /// [`NoMemory`] where memory is refused: the tables are unchanged.
    pub fn update_drivers(&mut self, alloc: Global, scene: &Scene) -> Result<(), NoMemory>
        ensures ok { OnOk result ((parts : TableParts) → AreTables self.old parts
            → AreTables self.new (record parts { drivers = (table_parts scene.now).drivers })) }
        ensures err { OnErr result (self.new ≡ self.old) }
    {
        self.drivers = DriverIndex::new(alloc, scene)?;
        Ok(())
    }
}

// What a table has for a name. Of an empty one no hash is taken.
fn named<'a, T>(table: &'a IndexMap<Name, T>, name: &Name) -> Option<&'a T>
    ensures { option_copied result ≡ get same_text table.now name.now }
{
    if table.is_empty() {
        return None;
    }
    table.get(name)
}

// The curves of each action, by index.
fn curve_tables(alloc: Global, actions: &[Action]) -> Result<List<ActionCurves>, NoMemory>
    requires { All (λ a. length a.curves < 2 ^ 32) actions.now }
    ensures { IfOk result (λ tables. AllZip (λ t a. AreCurvesOf t (map (λ c. c.path) a.curves)) tables actions.now) }
{
    let mut tables = List::new(alloc);
    for action in actions {
        tables.push(action_curves(alloc, action.curves.as_slice())?)?;
    }
    Ok(tables)
}

// The bones of each armature at rest, by index.
fn rest_tables(
    alloc: Global,
    armatures: &[ArmatureData],
) -> Result<List<List<BoneAtRest>>, NoMemory>
    requires { All (λ a. IsTrue (have_earlier_parents a.bones)) armatures.now }
    ensures { IfOk result (λ tables. AllZip (λ t a. AreBonesOf t a.bones) tables armatures.now) }
{
    let mut tables = List::new(alloc);
    for armature in armatures {
        tables.push(bones_at_rest(alloc, armature.bones.as_slice())?)?;
    }
    Ok(tables)
}

// The bones of each armature by name, by index.
fn name_tables(
    alloc: Global,
    armatures: &[ArmatureData],
) -> Result<List<IndexMap<Name, u32>>, NoMemory>
    requires { All (λ a. length a.bones < 2 ^ 32) armatures.now }
    ensures { IfOk result (λ tables. AllZip (λ t a. AreNamesOf t a.bones) tables armatures.now) }
{
    let mut tables = List::new(alloc);
    for armature in armatures {
        tables.push(bone_names(alloc, armature.bones.as_slice())?)?;
    }
    Ok(tables)
}

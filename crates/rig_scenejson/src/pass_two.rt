//! The second pass: finds what the names of a scene refer to, and makes its records.
#![tactic(auto, using(crate::proofs::First::first_append))]

ghost use Rattle.std.specs.Prelude.{◌≡◌, [], IsTrue};
ghost use Rattle.rig_scene.specs.WellFormed.{is_scene};
ghost use Rattle.serde_json.specs.View.{view};
ghost use Rattle.rig_scenejson.specs.Tests.{Reads, first};
ghost use Rattle.rig_scenejson.specs.Given.{scene_given};
ghost use Rattle.rig_scenejson.specs.PassOne.{pass_one, catalog_of};
ghost use Rattle.rig_scenejson.specs.PassTwo.{pass_two};

mod actions;
mod armatures;
mod drivers;
mod objects;
mod pencils;
mod poses;

use crate::before::Catalog;
use crate::fault::SceneStop;
use crate::given::list_at;
use crate::lookup::Lookup;
use crate::member::Member;
use crate::pass_one::records::item_count;
use crate::reader::read_list;
use armatures::ArmatureReader;
use drivers::DriverReader;
use objects::ObjectReader;
use pencils::PencilReader;
use rig_io::List;
use rig_scene::limits::MAX_POSE_BONES;
use rig_scene::{
    Action, ArmatureData, Driver, Object, PencilData, Scene, key_count, layer_key_count,
};
use serde_json::Value;
use std::alloc::Global;

/// The scene that a value gives, in which the first pass found no fault, and these names.
#[tactic(auto, using(crate::proofs::First::first_append), unfolding(crate::specs::PassTwo::pass_two, crate::specs::Given::scene_given))]
pub(crate) fn read_scene(
    alloc: Global,
    catalog: &Catalog,
    value: &Value,
) -> Result<Scene, SceneStop>
    requires tested { pass_one (view value.now) ≡ [] }
    requires catalog { catalog.now ≡ catalog_of (view value.now) }
    ensures { Reads result (scene_given catalog.now (view value.now)) (first (pass_two catalog.now (view value.now))) }
{
    let lookup = Lookup::new(alloc, catalog);
    let armatures = ArmatureReader { lookup: &lookup };
    let armatures = read_list(alloc, value, Member::Armatures, &armatures, &mut ())?;
    let pencils = PencilReader { lookup: &lookup };
    let pencils = read_list(alloc, value, Member::Pencils, &pencils, &mut ())?;
    let objects = ObjectReader { lookup: &lookup };
    let mut bones_left = MAX_POSE_BONES;
    let objects = read_list(alloc, value, Member::Objects, &objects, &mut bones_left)?;
    let drivers = DriverReader { lookup: &lookup };
    let drivers = read_list(alloc, value, Member::Drivers, &drivers, &mut ())?;
    let actions = list_at(alloc, Member::Actions, value)?;
    let next = item_count(value, Member::Objects) as u32;
    Ok(counted_scene(actions, armatures, pencils, objects, drivers, next))
}

/// The scene of these lists, with the numbers of its keys.
fn counted_scene(
    actions: List<Action>,
    armatures: List<ArmatureData>,
    pencils: List<PencilData>,
    objects: List<Object>,
    drivers: List<Driver>,
    next: u32,
) -> Scene
    requires { IsTrue (is_scene (record {
      actions = actions;
      armatures = armatures;
      pencils = pencils;
      objects = objects;
      drivers = drivers;
      next = next;
    })) }
    ensures { result ≡ record {
      actions = actions;
      armatures = armatures;
      pencils = pencils;
      objects = objects;
      drivers = drivers;
      next = next;
    } }
{
    Scene {
        key_count: key_count(actions.as_slice()),
        layer_key_count: layer_key_count(pencils.as_slice()),
        actions,
        armatures,
        pencils,
        objects,
        drivers,
        next,
    }
}

//! The cut reads of a scene that is read from JSON.
use rig_cut::Plan;
use rig_io::NoMemory;
use rig_links::{LinkTable, cycle_report};
use rig_nodes::NodeTable;
use rig_scene::{CutRead, ObjectId, Quantity, Scene};
use rig_scenejson::{SceneStop, scene_of};
use serde_json::Value;
use std::alloc::Global;
use std::test::Fail;

/// A's `loc.x` is driven by the world `loc.x` of its child B. The operations are the time, the driver, A's local and world
/// transform, and B's.
const DRIVEN_BY_ITS_CHILD: &str = r#"{"scene":{"version":1,
    "objects":[{"name":"A","kind":"empty"},{"name":"B","kind":"empty","parent":"A","loc":[1000000,0,0]}],
    "drivers":[{"object":"A","channel":"loc.x","kind":"sum","variables":[
        {"kind":"transform","object":"B","channel":"loc.x"}]}]}}"#;

fn crosses<T: Send + Sync>() {}

#[test]
fn tables_and_plans_cross_threads() {
    crosses::<NodeTable>();
    crosses::<LinkTable>();
    crosses::<Plan>();
}

fn scene_in(alloc: Global, text: &str) -> Result<Scene, Fail> {
    let input = Value::from_str(alloc, text)?;
    match scene_of(alloc, &input) {
        Ok(scene) => Ok(scene),
        Err(SceneStop::NoMemory) => Err(NoMemory.into()),
        Err(SceneStop::Fault(fault)) => Err(Fail::new(fault.cause.code())),
    }
}

fn is_cut(cuts: &[CutRead], source: ObjectId, reader: ObjectId) -> bool {
    match cuts {
        [cut] => cut.source == Quantity::World(source) && cut.reader == Quantity::World(reader),
        _ => false,
    }
}

#[test]
fn the_cut_reads_are_reported(rt: HostRuntime) -> Result<(), Fail> {
    let scene = scene_in(rt.alloc(), DRIVEN_BY_ITS_CHILD)?;
    let cuts = cycle_report(rt.alloc(), &scene)?;
    assert!(rt; is_cut(cuts.as_slice(), ObjectId(0), ObjectId(1)));
    Ok(())
}

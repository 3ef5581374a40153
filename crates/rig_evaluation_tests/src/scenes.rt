//! Scenes of the tests, from their JSON.
use rig_scene::Scene;
use rig_scenejson::{SceneStop, scene_of};
use serde_json::Value as Json;
use std::alloc::Global;

/// Root moves along x by a curve from 0 at 1 to 10 at 11, and carries Child, which stands at 2.
pub const ROOT_AND_CHILD: &str = r#"{"scene":{"version":1,
    "actions":[{"name":"Move","curves":[{"channel":"loc.x","keys":[{"frame":1,"value":0},{"frame":11,"value":10000000}]}]}],
    "objects":[{"name":"Root","kind":"empty","action":"Move"},
        {"name":"Child","kind":"empty","parent":"Root","loc":[2000000,0,0]}]}}"#;

/// Why a text gave no scene.
#[derive(Debug, Drop)]
pub enum Stop {
    Json(serde_json::Error),
    Scene(SceneStop),
}

/// The scene of a JSON text.
pub fn scene_in(alloc: Global, text: &str) -> Result<Scene, Stop> {
    let input = Json::from_str(alloc, text).map_err(Stop::Json)?;
    scene_of(alloc, &input).map_err(Stop::Scene)
}

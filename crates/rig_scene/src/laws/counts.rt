//! How many operations and quantities a scene has at the most.
ghost use Rattle.std.specs.Prelude.{◌<◌, ◌≤◌, length, IsTrue};
ghost use Rattle.rig_scene.specs.Scene.{SceneRecord};
ghost use Rattle.rig_scene.specs.WellFormed.{is_scene};
ghost use Rattle.rig_scene.specs.Quantities.{quantities};
ghost use Rattle.rig_scene.specs.Operations.{operations};

/// The numbers of operations and quantities take 16 bits: each pencil and object has a few, each bone one, and each
/// driver one.
pub fn operations_are_few()
    ensures operations { (s : SceneRecord) → IsTrue (is_scene s) → length (operations s) < 65536 }
    ensures quantities { (s : SceneRecord) → length (quantities s) ≤ length (operations s) }
{}

//! Reports on a scene: how large its graph is, and which reads it cuts.
ghost use Rattle.std.specs.Prelude.{◌≡◌, IfOk};
ghost use Rattle.rig_play.specs.Check.{check_text_of};

use rig_io::NoMemory;
use rig_links::links;
use rig_nodes::nodes;
use rig_scene::Scene;
use std::alloc::Global;

/// What `check` prints of a scene.
pub(crate) fn checked_text(alloc: Global, scene: &Scene) -> Result<Vec<u8>, NoMemory>
    ensures { IfOk result (λ text. text.items ≡ check_text_of scene.now) }
{
    let nodes = nodes(alloc, scene)?;
    let links = links(alloc, scene, &nodes)?;
    let cuts = links.cut_reads(alloc, &nodes)?;
    rig_text::check_text(alloc, scene, nodes.len(), links.links(), &cuts)
}

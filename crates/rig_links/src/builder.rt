//! How the in-links of a scene are made.
ghost use Rattle.std.specs.Prelude.{◌≡◌, length, IfOk};
ghost use Rattle.std.specs.List.{flat_map, range_with_len};
ghost use Rattle.rig_cycles.specs.Order.{IsTopologicalOrder};
ghost use Rattle.rig_rows.specs.Rows.{joined};
ghost use Rattle.rig_scene.specs.Cut.{cuts};
ghost use Rattle.rig_scene.specs.Operations.{operations, ins};
ghost use Rattle.rig_links.specs.Links.{AreInsOf, kept_reads};
ghost use Rattle.rig_links.specs.Report.{reads_of_rows};

use crate::places::places_in;
use crate::rows::{in_rows, reader_rows};
use crate::scene_links::scene_links;
use crate::table::LinkTable;
use rig_cut::cut;
use rig_io::NoMemory;
use rig_nodes::NodeTable;
use rig_scene::Scene;
use std::alloc::Global;

/// The in-links of a scene's operations, which `nodes` numbers.
///
/// # Errors
///
/// [`NoMemory`] where memory is refused.
pub fn links(alloc: Global, scene: &Scene, nodes: &NodeTable) -> Result<LinkTable, NoMemory>
    requires { nodes.now ≡ operations scene.now }
    ensures ins { IfOk result (λ table. AreInsOf scene.now table.ins) }
    ensures rows { IfOk result (λ table. length table.ins ≡ length (operations scene.now)) }
    ensures count { IfOk result (λ table. length (joined table.ins) ≡ length (flat_map (ins scene.now) (operations scene.now))) }
    ensures cuts { IfOk result (λ table. reads_of_rows (operations scene.now) table.ins ≡ cuts scene.now) }
    ensures order { IfOk result (λ table.
        IsTopologicalOrder (range_with_len 0 (length (operations scene.now))) (kept_reads table.ins) table.order) }
{
    let links = scene_links(alloc, scene, nodes)?;
    let count = nodes.len();
    let cut = cut(alloc, count, links.as_slice())?;
    let ins = in_rows(alloc, count, links.as_slice(), cut.cuts.as_slice())?;
    let readers = reader_rows(alloc, count, links.as_slice(), cut.cuts.as_slice())?;
    let places = places_in(alloc, cut.order.as_slice())?;
    Ok(LinkTable {
        ins,
        readers,
        order: cut.order,
        places,
    })
}

//! A scene with all that is looked up in it while it is evaluated.
ghost use Rattle.std.specs.Prelude.{◌≡◌, ℕ, ◌<◌, ◌++◌, length, map, slice_get, true, Some, option_map, option_and_then, IfOk, OnOk, IsSome, IsTrue, Contains};
ghost use Rattle.std.specs.List.{All};
ghost use Rattle.rig_copies.specs.Copies.{kept_at};
ghost use Rattle.rig_flush.specs.Shown.{shown_operations};
ghost use Rattle.rig_flush.specs.Tables.{AreTablesOf};
ghost use Rattle.rig_laws.specs.Output.{rest_output};
ghost use Rattle.rig_links.specs.declared.table.In.{In as Link};
ghost use Rattle.rig_scene.specs.Operations.{operations};
ghost use Rattle.rig_scene.specs.Pairs.{NoneTwice};
ghost use Rattle.rig_scene.specs.StandsFor.{quantity_of};
ghost use Rattle.rig_scene.specs.WellFormed.{is_scene};
ghost use Rattle.rig_graph.specs.Parts.{AreRests, IsCopy};

use rig_cut::NodeSet;
use rig_flush::shown_numbers;
use rig_io::NoMemory;
use rig_kernel::{Out, SceneTables, rest};
use rig_links::{In, LinkTable, links};
use rig_nodes::{NodeTable, nodes};
use rig_scene::Scene;
use std::alloc::Global;

/// A scene, its operations and in-links by number, and what else evaluation looks up.
#[derive(Drop)]
pub(crate) struct SceneCopy {
    pub(crate) scene: Scene,
    pub(crate) nodes: NodeTable,
    pub(crate) links: LinkTable,
    pub(crate) tables: SceneTables,
    // The numbers of the operations that a frame shows, in its order.
    pub(crate) shown: NodeSet,
    // At the number of each operation that a cut in-link names, its rest value.
    pub(crate) rests: Vec<Option<Out>>,
}

/// A scene with its tables. It takes time by the number of its operations and links.
pub(crate) fn scene_copy(alloc: Global, scene: Scene) -> Result<SceneCopy, NoMemory>
    ensures scene { IfOk result (λ copy. copy.scene ≡ scene) }
    ensures copy { IfOk result (λ copy. IsCopy copy) }
{
    let (nodes, links) = tables_of(alloc, &scene)?;
    let tables = SceneTables::new(alloc, &scene)?;
    let shown = shown_set(alloc, &scene, &nodes)?;
    let rests = rest_outputs(alloc, &scene, &nodes, &links)?;
    Ok(SceneCopy {
        scene,
        nodes,
        links,
        tables,
        shown,
        rests,
    })
}

// The operations of a scene and their in-links.
fn tables_of(alloc: Global, scene: &Scene) -> Result<(NodeTable, LinkTable), NoMemory>
    ensures tables { IfOk result (λ tables. AreTablesOf scene.now tables.0 tables.1) }
    ensures scene { IsTrue (is_scene scene.now) }
{
    let _next = scene.next;
    let nodes = nodes(alloc, scene)?;
    let links = links(alloc, scene, &nodes)?;
    Ok((nodes, links))
}

// The numbers of the operations that a frame shows, in its order.
fn shown_set(alloc: Global, scene: &Scene, nodes: &NodeTable) -> Result<NodeSet, NoMemory>
    requires scene { IsTrue (is_scene scene.now) }
    requires nodes { nodes.now ≡ operations scene.now }
    ensures count { IfOk result (λ set. set.count ≡ length nodes.now) }
    ensures members { IfOk result (λ set. map (slice_get nodes.now) set.members ≡ map Some (shown_operations scene.now)) }
{
    let numbers = shown_numbers(alloc, scene, nodes)?;
    let mut set = NodeSet::new(alloc, nodes.len())?;
    add_each(&mut set, numbers.as_slice());
    Ok(set)
}

// Adds numbers of which none stands twice.
fn add_each(set: &mut NodeSet, numbers: &[u32])
    requires within { All (λ n. n < set.old.count) numbers.now }
    requires once { NoneTwice (set.old.members ++ numbers.now) }
    ensures count { set.new.count ≡ set.old.count }
    ensures members { set.new.members ≡ set.old.members ++ numbers.now }
{
    for n in numbers {
        set.add(*n);
    }
}

// The rest values that cut in-links give, by the numbers of their operations.
fn rest_outputs(
    alloc: Global,
    scene: &Scene,
    nodes: &NodeTable,
    links: &LinkTable,
) -> Result<Vec<Option<Out>>, NoMemory>
    requires scene { IsTrue (is_scene scene.now) }
    requires tables { AreTablesOf scene.now nodes.now links.now }
    ensures { IfOk result (λ rests. AreRests nodes.now links.now.ins rests.items) }
{
    let mut rests = no_outputs(alloc, nodes.len())?;
    for n in 0..nodes.len() {
        add_rests(alloc, &mut rests, nodes, links.ins(n))?;
    }
    Ok(rests)
}

fn no_outputs(alloc: Global, count: u32) -> Result<Vec<Option<Out>>, NoMemory>
    ensures { IfOk result (λ outs. length outs.items ≡ count) }
{
    let mut outs = Vec::with_capacity(alloc, count as usize)?;
    for _n in 0..count {
        outs.push_reserved(None);
    }
    Ok(outs)
}

// Adds the rest values of the operations that a row of in-links names by cut ones.
fn add_rests(
    alloc: Global,
    rests: &mut Vec<Option<Out>>,
    nodes: &NodeTable,
    row: &[In],
) -> Result<(), NoMemory>
    requires one_each { length rests.old.items ≡ length nodes.now }
    requires within { All (λ l. l.source < length nodes.now) row.now }
    requires quantities { (l : Link) → Contains row.now l → l.cut ≡ true → IsSome (option_and_then quantity_of (slice_get nodes.now l.source)) }
    ensures one_each { OnOk result (length rests.new.items ≡ length nodes.now) }
    ensures added { OnOk result ((l : Link) → Contains row.now l → l.cut ≡ true →
        kept_at rests.new.items l.source ≡ option_map rest_output (slice_get nodes.now l.source)) }
    ensures others { OnOk result ((n : ℕ) → kept_at rests.old.items n ≡ option_map rest_output (slice_get nodes.now n) →
        kept_at rests.new.items n ≡ option_map rest_output (slice_get nodes.now n)) }
{
    for link in row {
        add_rest(alloc, rests, nodes, *link)?;
    }
    Ok(())
}

fn add_rest(
    alloc: Global,
    rests: &mut Vec<Option<Out>>,
    nodes: &NodeTable,
    link: In,
) -> Result<(), NoMemory>
    requires one_each { length rests.old.items ≡ length nodes.now }
    requires within { link.source < length nodes.now }
    requires quantity { link.cut ≡ true → IsSome (option_and_then quantity_of (slice_get nodes.now link.source)) }
    ensures one_each { OnOk result (length rests.new.items ≡ length nodes.now) }
    ensures added { OnOk result (link.cut ≡ true →
        kept_at rests.new.items link.source ≡ option_map rest_output (slice_get nodes.now link.source)) }
    ensures others { OnOk result ((n : ℕ) → kept_at rests.old.items n ≡ option_map rest_output (slice_get nodes.now n) →
        kept_at rests.new.items n ≡ option_map rest_output (slice_get nodes.now n)) }
{
    if !link.cut {
        return Ok(());
    }
    let out = rest(alloc, nodes.op(link.source))?;
    rests[link.source as usize] = Some(out);
    Ok(())
}

//! The cut reads of a scene.
ghost use Rattle.std.specs.Prelude.{◌≡◌, ◌<◌, ◌++◌, length, IsTrue, IfOk, OnOk};
ghost use Rattle.std.specs.List.{All};
ghost use Rattle.rig_scene.specs.Cut.{cuts};
ghost use Rattle.rig_scene.specs.Operations.{operations};
ghost use Rattle.rig_scene.specs.Scene.{SceneRecord};
ghost use Rattle.rig_scene.specs.StandsFor.{quantity_of};
ghost use Rattle.rig_scene.specs.WellFormed.{is_scene};
ghost use Rattle.rig_links.specs.Links.{AreInsOf};
ghost use Rattle.rig_links.specs.Report.{cut_read, reads_of_row, reads_of_rows};

use crate::builder::links;
use crate::table::{In, LinkTable};
use rig_io::{List, NoMemory};
use rig_nodes::{NodeTable, nodes};
use rig_scene::{CutRead, OpId, Quantity, Scene};
use std::alloc::Global;

impl LinkTable {
    /// The cut reads of the scene whose operations `nodes` numbers and whose in-links these are, in the order in which they
    /// are tested.
    ///
    /// # Errors
    ///
    /// [`NoMemory`] where memory is refused.
    pub fn cut_reads(&self, alloc: Global, nodes: &NodeTable) -> Result<List<CutRead>, NoMemory>
        requires { length nodes.now ≡ length self.now.ins }
        ensures reads { IfOk result (λ list. list ≡ reads_of_rows nodes.now self.now.ins) }
        ensures cuts { (s : SceneRecord) → IsTrue (is_scene s) → nodes.now ≡ operations s → AreInsOf s self.now.ins →
            IfOk result (λ list. list ≡ cuts s) }
    {
        let mut cuts = List::new(alloc);
        for n in 0..nodes.len() {
            push_cut_reads(&mut cuts, nodes, nodes.op(n), self.ins(n))?;
        }
        Ok(cuts)
    }
}

// Adds the reads that the cut ones of an operation's in-links stand for.
fn push_cut_reads(
    cuts: &mut List<CutRead>,
    nodes: &NodeTable,
    reader: &OpId,
    ins: &[In],
) -> Result<(), NoMemory>
    requires { All (λ l. l.source < length nodes.now) ins.now }
    ensures { OnOk result (cuts.new ≡ cuts.old ++ reads_of_row nodes.now reader.now ins.now) }
{
    for link in ins {
        if link.cut {
            push_cut_read(cuts, nodes.op(link.source), reader)?;
        }
    }
    Ok(())
}

// Adds the read of an operation by another, where both stand for a quantity.
fn push_cut_read(cuts: &mut List<CutRead>, source: &OpId, reader: &OpId) -> Result<(), NoMemory>
    ensures { OnOk result (cuts.new ≡ cuts.old ++ cut_read source.now reader.now) }
{
    if let (Some(source), Some(reader)) = (quantity_of(source)?, quantity_of(reader)?) {
        cuts.push(CutRead { source, reader })?;
    }
    Ok(())
}

// The quantity that an operation stands for.
fn quantity_of(op: &OpId) -> Result<Option<Quantity>, NoMemory>
    ensures { IfOk result (λ quantity. quantity ≡ quantity_of op.now) }
{
    Ok(match op {
        OpId::Driver(id, path) => Some(Quantity::Chan(*id, path.copy()?)),
        OpId::Local(o) => Some(Quantity::Local(*o)),
        OpId::World(o) => Some(Quantity::World(*o)),
        OpId::Bone(o, bone) => Some(Quantity::Bone(*o, *bone)),
        OpId::Layer(pencil, layer) => Some(Quantity::Layer(*pencil, *layer)),
        OpId::Geometry(o) => Some(Quantity::Geom(*o, 0)),
        OpId::ModifierOp(_, 0) => None,
        OpId::ModifierOp(o, modifier) => Some(Quantity::Geom(*o, *modifier)),
        OpId::Time
        | OpId::Animation(_)
        | OpId::PoseInit(_)
        | OpId::PoseDone(_)
        | OpId::GeometryDone(_) => None,
    })
}

/// The cut reads of a scene, in the order in which they are tested.
///
/// # Errors
///
/// [`NoMemory`] where memory is refused.
pub fn cycle_report(alloc: Global, scene: &Scene) -> Result<List<CutRead>, NoMemory>
    ensures { IfOk result (λ list. list ≡ cuts scene.now) }
{
    let nodes = nodes(alloc, scene)?;
    let links = links(alloc, scene, &nodes)?;
    links.cut_reads(alloc, &nodes)
}

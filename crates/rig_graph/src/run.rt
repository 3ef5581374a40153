//! The operations of a plan, run one after the other.
ghost use Rattle.std.specs.Prelude.{◌≡◌, length, map, slice_get, option_map, Some, IfOk, OnOk, IsTrue};
ghost use Rattle.rig_flush.specs.ByNumber.{IsNext};
ghost use Rattle.rig_flush.specs.Counted.{raised_by};
ghost use Rattle.rig_io.specs.Faults.{raised};
ghost use Rattle.rig_scene.specs.WellFormed.{is_frame};
ghost use Rattle.rig_graph.specs.Parts.{IsCopy, IsPlanned, given, output_at_number};

use crate::at_links::AtLinks;
use crate::scene_copy::SceneCopy;
use rig_copies::Copies;
use rig_cut::NodeSet;
use rig_io::{NoMemory, Tally};
use rig_kernel::{Out, run_op_into};
use rig_scene::Mode;
use rig_workers::Watch;
use std::alloc::Global;

/// Runs the operations of `reached` in its order, each once, over the results before it and what is kept of others. What is kept isn't
/// changed: the results are given. `tally` counts each operation, and `watch` is told of it.
///
/// # Errors
///
/// [`NoMemory`] where memory is refused.
pub(crate) fn run_reached<W: Watch, Y: Tally>(
    alloc: Global,
    copy: &SceneCopy,
    mode: Mode,
    frame: i32,
    reached: &NodeSet,
    copies: &mut Copies,
    watch: &W,
    tally: &mut Y,
) -> Result<Vec<Out>, NoMemory>
    requires copy { IsCopy copy.now }
    requires frame { IsTrue (is_frame frame) }
    requires count { reached.now.count ≡ length copy.now.nodes }
    requires planned { IsPlanned copy.now.scene mode frame copy.now.links.order reached.now.members copies.old.kept }
    ensures results { IfOk result (λ results. map Some results.items ≡ map (output_at_number copy.now.scene mode frame) reached.now.members) }
    ensures copies { copies.new ≡ copies.old }
    ensures tally { OnOk result (Y.count tally.new ≡ raised_by (length reached.now.members) (Y.count tally.old)) }
{
    let mut results = Vec::with_capacity(alloc, reached.len())?;
    for place in 0..reached.len() {
        watch.started(place as u32);
        let n = reached.get(place);
        let out = run_node(
            alloc,
            copy,
            mode,
            frame,
            reached,
            n,
            results.as_slice(),
            copies,
            tally,
        )?;
        results.push_reserved(out);
    }
    Ok(results)
}

// Runs the operation of a number that is next.
fn run_node<Y: Tally>(
    alloc: Global,
    copy: &SceneCopy,
    mode: Mode,
    frame: i32,
    reached: &NodeSet,
    n: u32,
    results: &[Out],
    copies: &mut Copies,
    tally: &mut Y,
) -> Result<Out, NoMemory>
    requires copy { IsCopy copy.now }
    requires frame { IsTrue (is_frame frame) }
    requires count { reached.now.count ≡ length copy.now.nodes }
    requires next { IsNext copy.now.scene mode frame copy.now.links.order
        (given (length copy.now.nodes) reached.now.members results.now copies.old.kept) n }
    ensures value { IfOk result (λ out. output_at_number copy.now.scene mode frame n ≡ Some out) }
    ensures copies { copies.new ≡ copies.old }
    ensures tick { Y.count tally.new ≡ raised (Y.count tally.old) }
{
    let spare = copies.take_spare(n);
    let inputs = AtLinks {
        row: copy.links.ins(n),
        rests: copy.rests.as_slice(),
        reached,
        results,
        copies,
    };
    run_op_into(
        alloc,
        spare,
        copy.nodes.op(n),
        &copy.scene,
        &copy.tables,
        mode,
        frame,
        &inputs,
        tally,
    )
}

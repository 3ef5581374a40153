//! A whole scene at a frame, evaluated plainly: each operation once, in an order of evaluation.
ghost use Rattle.std.specs.Prelude.{◌≡◌, ◌++◌, length, map, slice_get, option_map, Some, IfOk, OnOk, IsSome, IsTrue};
ghost use Rattle.std.specs.List.{All};
ghost use Rattle.rig_io.specs.Faults.{raised};
ghost use Rattle.rig_laws.specs.Output.{rest_output};
ghost use Rattle.rig_kernel.specs.Tables.{table_parts, AreTables};
ghost use Rattle.rig_scene.specs.Cut.{cuts};
ghost use Rattle.rig_scene.specs.Operations.{operations};
ghost use Rattle.rig_scene.specs.WellFormed.{is_frame, is_scene};
ghost use Rattle.rig_flush.specs.ByNumber.{kept_at, input_from, CanTake, IsNext};
ghost use Rattle.rig_flush.specs.Counted.{raised_by};
ghost use Rattle.rig_flush.specs.Shown.{output_of, shown};
ghost use Rattle.rig_flush.specs.Tables.{AreTablesOf};

use crate::shown::shown_numbers;
use rig_io::{NoMemory, Share, Tally};
use rig_kernel::{Done, Out, SceneTables, rest, run_op};
use rig_links::{In, LinkTable, links};
use rig_nodes::{NodeTable, nodes};
use rig_scene::{Mode, Scene};
use std::alloc::Global;

/// A scene at a frame from -1,000,000 to 1,000,000, from scratch: each operation is run once, and nothing is kept. `tally` counts
/// one more for each. It is what an evaluation that keeps outputs between frames is compared with.
///
/// # Errors
///
/// [`NoMemory`] where memory is refused.
pub fn scratch<Y: Tally>(
    alloc: Global,
    scene: &Scene,
    mode: Mode,
    frame: i32,
    tally: &mut Y,
) -> Result<Done, NoMemory>
    requires frame { IsTrue (is_frame frame) }
    ensures head { IfOk result (λ done. (done.frame ≡ frame) × (done.mode ≡ mode)) }
    ensures cuts { IfOk result (λ done. done.cuts ≡ cuts scene.now) }
    ensures outs { IfOk result (λ done. done.outs ≡ shown scene.now mode frame) }
    ensures tally { OnOk result (Y.count tally.new ≡ raised_by (length (operations scene.now)) (Y.count tally.old)) }
{
    let (nodes, links) = tables_of(alloc, scene)?;
    let kept = outputs(alloc, scene, &nodes, &links, mode, frame, tally)?;
    let shown = shown_numbers(alloc, scene, &nodes)?;
    let cuts = links.cut_reads(alloc, &nodes)?;
    let mut done = Done::new(alloc, frame, mode, cuts);
    add_kept(&mut done, kept.as_slice(), shown.as_slice())?;
    Ok(done)
}

// The operations of a scene and their in-links.
fn tables_of(alloc: Global, scene: &Scene) -> Result<(NodeTable, LinkTable), NoMemory>
    ensures tables { IfOk result (λ tables. AreTablesOf scene.now tables.0 tables.1) }
    ensures scene { IsTrue (is_scene scene.now) }
{
    let _next = scene.next;
    let nodes = nodes(alloc, scene)?;
    let links = links(alloc, scene, &nodes)?;
    Ok((nodes, links))
}

// The outputs of all operations, by number.
fn outputs<Y: Tally>(
    alloc: Global,
    scene: &Scene,
    nodes: &NodeTable,
    links: &LinkTable,
    mode: Mode,
    frame: i32,
    tally: &mut Y,
) -> Result<Vec<Option<Out>>, NoMemory>
    requires scene { IsTrue (is_scene scene.now) }
    requires links { AreTablesOf scene.now nodes.now links.now }
    requires frame { IsTrue (is_frame frame) }
    ensures kept { IfOk result (λ kept. kept.items ≡ map (λ op. Some (output_of scene.now mode frame op)) (operations scene.now)) }
    ensures tally { OnOk result (Y.count tally.new ≡ raised_by (length (operations scene.now)) (Y.count tally.old)) }
{
    let tables = SceneTables::new(alloc, scene)?;
    let mut kept = no_outputs(alloc, nodes.len())?;
    for n in links.order() {
        let out = output(
            alloc,
            scene,
            nodes,
            links,
            &tables,
            mode,
            frame,
            kept.as_slice(),
            *n,
            tally,
        )?;
        kept[*n as usize] = Some(out);
    }
    Ok(kept)
}

fn no_outputs(alloc: Global, count: u32) -> Result<Vec<Option<Out>>, NoMemory>
    ensures { IfOk result (λ kept. length kept.items ≡ count) }
{
    let mut kept = Vec::with_capacity(alloc, count as usize)?;
    for _n in 0..count {
        kept.push(None)?;
    }
    Ok(kept)
}

// The output of an operation, where those before it in the order are kept.
fn output<Y: Tally>(
    alloc: Global,
    scene: &Scene,
    nodes: &NodeTable,
    links: &LinkTable,
    tables: &SceneTables,
    mode: Mode,
    frame: i32,
    kept: &[Option<Out>],
    n: u32,
    tally: &mut Y,
) -> Result<Out, NoMemory>
    requires scene { IsTrue (is_scene scene.now) }
    requires links { AreTablesOf scene.now nodes.now links.now }
    requires tables { AreTables tables.now (table_parts scene.now) }
    requires frame { IsTrue (is_frame frame) }
    requires next { IsNext scene.now mode frame links.now.order kept.now n }
    ensures value { IfOk result (λ out. option_map (output_of scene.now mode frame) (slice_get (operations scene.now) n) ≡ Some out) }
    ensures tick { OnOk result (Y.count tally.new ≡ raised (Y.count tally.old)) }
{
    let inputs = inputs_of(alloc, nodes, kept, links.ins(n))?;
    run_op(
        alloc,
        nodes.op(n),
        scene,
        tables,
        mode,
        frame,
        inputs.as_slice(),
        tally,
    )
}

// What is taken at in-links.
fn inputs_of(
    alloc: Global,
    nodes: &NodeTable,
    kept: &[Option<Out>],
    row: &[In],
) -> Result<Vec<Out>, NoMemory>
    requires { All (CanTake nodes.now kept.now) row.now }
    ensures { IfOk result (λ inputs. map Some inputs.items ≡ map (input_from nodes.now kept.now) row.now) }
{
    let mut inputs = Vec::with_capacity(alloc, row.len())?;
    for link in row {
        inputs.push(input(alloc, nodes, kept, *link)?)?;
    }
    Ok(inputs)
}

fn input(alloc: Global, nodes: &NodeTable, kept: &[Option<Out>], link: In) -> Result<Out, NoMemory>
    requires { CanTake nodes.now kept.now link }
    ensures { IfOk result (λ out. input_from nodes.now kept.now link ≡ Some out) }
{
    if link.cut {
        rest(alloc, nodes.op(link.source))
    } else {
        kept_output(kept, link.source).share()
    }
}

// The output that is kept at a number.
fn kept_output(kept: &[Option<Out>], n: u32) -> &Out
    requires { IsSome (kept_at kept.now n) }
    ensures { kept_at kept.now n ≡ Some result.now }
{
    kept[n as usize].as_ref().unwrap()
}

// Adds the outputs that are kept at some numbers.
fn add_kept(done: &mut Done, kept: &[Option<Out>], numbers: &[u32]) -> Result<(), NoMemory>
    requires { All (λ n. IsSome (kept_at kept.now n)) numbers.now }
    ensures outs { OnOk result (map Some done.new.outs ≡ map Some done.old.outs ++ map (kept_at kept.now) numbers.now) }
    ensures head { OnOk result ((done.new.frame ≡ done.old.frame) × (done.new.mode ≡ done.old.mode)) }
    ensures cuts { OnOk result (done.new.cuts ≡ done.old.cuts) }
{
    for n in numbers {
        done.add(kept_output(kept, *n).share()?)?;
    }
    Ok(())
}

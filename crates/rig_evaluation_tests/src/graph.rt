//! A graph of the scene of a root and its child that takes edits and evaluates frames.
//!
//! Each call that may want memory is made again where it is refused, so that the tests pass too where any one allocation fails
//! (`rt try --test --fail-alloc N`), if what was refused has lost nothing.
ghost use Rattle.std.specs.Prelude.{◌≡◌, ◌<◌, IfOk, IsTrue, None};
ghost use Rattle.rig_edits.specs.Conditions.{first_cause};
ghost use Rattle.rig_edits.specs.declared.change.TheConstants.{MAX_NEXT};
ghost use Rattle.rig_scene.specs.WellFormed.{is_frame};

use crate::scenes::{ROOT_AND_CHILD, Stop, scene_in};
use rig_edits::{Edit, EditStop, IdName, MAX_NEXT, apply};
use rig_graph::Graph;
use rig_io::{Count, NoMemory, Tally};
use rig_kernel::{Done, Value};
use rig_originals::Entry;
use rig_pending::{Mark, Trace};
use rig_scene::{Channel, Mode, Name, ObjectId, OpId, Path, Scene};
use rig_scenejson::SceneStop;
use rig_workers::Quiet;
use std::alloc::Global;
use std::slice;
use std::test::Fail;

const U: i64 = 1_000_000;

fn opened(alloc: Global) -> Result<Graph, Stop> {
    match opened_once(alloc) {
        Ok(graph) => Ok(graph),
        Err(_) => opened_once(alloc),
    }
}

fn opened_once(alloc: Global) -> Result<Graph, Stop> {
    let scene = scene_in(alloc, ROOT_AND_CHILD)?;
    match Graph::open(alloc, scene, Mode::Viewport) {
        Ok(graph) => Ok(graph),
        Err(NoMemory) => Err(Stop::Scene(SceneStop::NoMemory)),
    }
}

fn stopped(answer: Result<bool, NoMemory>) -> Result<bool, Stop> {
    match answer {
        Ok(is_so) => Ok(is_so),
        Err(NoMemory) => Err(Stop::Scene(SceneStop::NoMemory)),
    }
}

/// Evaluates a frame. Whether these operations of the six of the scene ran and were counted, by their numbers, and the scene has so
/// many in-links.
fn runs(
    alloc: Global,
    graph: &mut Graph,
    frame: i32,
    numbers: &[u32],
    links: u32,
) -> Result<bool, NoMemory>
    requires { IsTrue (is_frame frame) }
{
    match runs_once(alloc, graph, frame, numbers, links) {
        Ok(is_so) => Ok(is_so),
        Err(NoMemory) => runs_once(alloc, graph, frame, numbers, links),
    }
}

fn runs_once(
    alloc: Global,
    graph: &mut Graph,
    frame: i32,
    numbers: &[u32],
    links: u32,
) -> Result<bool, NoMemory>
    requires { IsTrue (is_frame frame) }
{
    let mut tallies = [Count::new()];
    let report = graph.evaluate(alloc, frame, &Quiet, &mut tallies)?;
    let is_told = report.operations == 6
        && report.links == links
        && report.ran as usize == numbers.len();
    let is_counted = tallies[0].count() == u64::from(report.ran);
    Ok(is_told && is_counted && ran(&report.trace, numbers))
}

/// Whether these operations ran, by their numbers, each once and no other, in any order.
fn ran(trace: &Trace, numbers: &[u32]) -> bool {
    let marks = trace.as_slice();
    marks.len() / 2 == numbers.len()
        && numbers.iter().all(|n| marks.contains(&Mark::Start(*n))
            && marks.contains(&Mark::Finish(*n)))
}

/// Whether a published frame shows Root and Child at these locations, with the rest of a transform at identity.
fn shows(graph: &Graph, frame: i32, root: [i64; 3], child: [i64; 3]) -> bool {
    match graph.published() {
        Some(done) => {
            done.frame == frame
                && done.mode == Mode::Viewport
                && done.cuts.is_empty()
                && done.outs.len() == 2
                && stands(done, 0, root)
                && stands(done, 1, child)
        }
        None => false,
    }
}

fn stands(done: &Done, index: usize, loc: [i64; 3]) -> bool {
    match done.outs.as_slice().get(index).map(|out| out.value()) {
        Some(Value::Transform(t)) => {
            [t.loc.x.get(), t.loc.y.get(), t.loc.z.get()] == loc
                && [t.rot.w, t.rot.x, t.rot.y, t.rot.z] == [U, 0, 0, 0]
                && t.scale.get() == U
        }
        _ => false,
    }
}

/// Whether an edit of a scene is accepted.
fn is_accepted(alloc: Global, scene: &Scene, edit: &Edit) -> Result<bool, NoMemory>
    ensures { IfOk result (λ accepted. IsTrue accepted → (scene.now.next < MAX_NEXT) × (first_cause scene.now edit.now ≡ None)) }
{
    if scene.next >= MAX_NEXT {
        return Ok(false);
    }
    let mut probe = scene.copy()?;
    match apply(alloc, &mut probe, edit) {
        Ok(()) => Ok(true),
        Err(EditStop::Refused(_)) => Ok(false),
        Err(EditStop::NoMemory) => Err(NoMemory),
    }
}

/// Takes an edit with a turn, and tells whether it was accepted.
fn takes(alloc: Global, graph: &mut Graph, turn: u32, edit: &Edit) -> Result<bool, NoMemory> {
    match takes_once(alloc, graph, turn, edit) {
        Ok(is_accepted) => Ok(is_accepted),
        Err(NoMemory) => takes_once(alloc, graph, turn, edit),
    }
}

fn takes_once(alloc: Global, graph: &mut Graph, turn: u32, edit: &Edit) -> Result<bool, NoMemory> {
    if turn < graph.version() || turn == u32::MAX || !is_accepted(alloc, graph.scene(), edit)? {
        return Ok(false);
    }
    let entry = Entry {
        turn,
        edit: edit.copy()?,
    };
    graph.take(alloc, slice::from_ref(&entry))?;
    Ok(true)
}

fn name(alloc: Global, text: &[u8]) -> Result<Name, NoMemory> {
    match Name::of(alloc, text) {
        Ok(name) => Ok(name),
        Err(_) => name_again(alloc, text),
    }
}

fn name_again(alloc: Global, text: &[u8]) -> Result<Name, NoMemory> {
    match Name::of(alloc, text) {
        Ok(name) => Ok(name),
        Err(_) => Err(NoMemory),
    }
}

/// All operations.
const ALL: [u32; 6] = [0, 1, 2, 3, 4, 5];

/// Time, Animation, Local and World of Root and World of Child.
const REACHED_BY_THE_TIME: [u32; 5] = [0, 1, 2, 3, 5];

/// Root at 5 and Child at 7.
fn shows_the_first_frame(graph: &Graph) -> bool {
    shows(graph, 6, [5 * U, 0, 0], [7 * U, 0, 0])
}

fn runs_the_first_frame(alloc: Global, graph: &mut Graph) -> Result<bool, NoMemory> {
    Ok(runs(alloc, graph, 6, &ALL, 5)? && shows_the_first_frame(graph))
}

fn runs_nothing(alloc: Global, graph: &mut Graph) -> Result<bool, NoMemory> {
    Ok(runs(alloc, graph, 6, &[], 5)? && shows_the_first_frame(graph))
}

fn runs_the_next_frame(alloc: Global, graph: &mut Graph) -> Result<bool, NoMemory> {
    let is_run = runs(alloc, graph, 7, &REACHED_BY_THE_TIME, 5)?;
    Ok(is_run && shows(graph, 7, [6 * U, 0, 0], [8 * U, 0, 0]))
}

fn runs_frames(alloc: Global, graph: &mut Graph) -> Result<bool, NoMemory> {
    Ok(
        graph.published().is_none()
            && runs_the_first_frame(alloc, graph)?
            && runs_nothing(alloc, graph)?
            && runs_the_next_frame(alloc, graph)?,
    )
}

fn are_frames_run(alloc: Global) -> Result<bool, Stop> {
    let mut graph = opened(alloc)?;
    stopped(runs_frames(alloc, &mut graph))
}

#[test]
fn a_frame_runs_what_the_time_reaches(rt: HostRuntime) -> Result<(), Fail> {
    assert!(rt; are_frames_run(rt.alloc())?);
    Ok(())
}

fn takes_y_of_child(alloc: Global, graph: &mut Graph) -> Result<bool, NoMemory> {
    let edit = Edit::SetValue {
        id: IdName::Object(name(alloc, b"Child")?),
        path: Path::Own(Channel::LocY),
        value: 3,
    };
    takes(alloc, graph, 1, &edit)
}

/// What is published stays until the next evaluation.
fn has_the_local_transform_of_child_tagged(graph: &Graph) -> bool {
    let tags = graph.tags();
    graph.version() == 2
        && tags.len() == 1
        && tags.has(&OpId::Local(ObjectId(1)))
        && shows_the_first_frame(graph)
}

/// Local and World of Child.
fn runs_the_child(alloc: Global, graph: &mut Graph) -> Result<bool, NoMemory> {
    let is_run = runs(alloc, graph, 6, &[4, 5], 5)?;
    Ok(is_run && shows(graph, 6, [5 * U, 0, 0], [7 * U, 3, 0]))
}

fn runs_an_edit(alloc: Global, graph: &mut Graph) -> Result<bool, NoMemory> {
    Ok(
        runs_the_first_frame(alloc, graph)?
            && takes_y_of_child(alloc, graph)?
            && has_the_local_transform_of_child_tagged(graph)
            && runs_the_child(alloc, graph)?,
    )
}

fn is_an_edit_run(alloc: Global) -> Result<bool, Stop> {
    let mut graph = opened(alloc)?;
    stopped(runs_an_edit(alloc, &mut graph))
}

#[test]
fn an_edit_runs_what_it_reaches(rt: HostRuntime) -> Result<(), Fail> {
    assert!(rt; is_an_edit_run(rt.alloc())?);
    Ok(())
}

fn takes_removal(
    alloc: Global,
    graph: &mut Graph,
    turn: u32,
    object: &[u8],
) -> Result<bool, NoMemory> {
    let edit = Edit::RemoveObject {
        object: name(alloc, object)?,
    };
    takes(alloc, graph, turn, &edit)
}

/// Root is the parent of Child, and Nobody isn't there.
fn runs_nothing_after_refusals(alloc: Global, graph: &mut Graph) -> Result<bool, NoMemory> {
    Ok(
        runs_the_first_frame(alloc, graph)?
            && !takes_removal(alloc, graph, 1, b"Root")?
            && !takes_removal(alloc, graph, 2, b"Nobody")?
            && graph.version() == 0
            && runs_nothing(alloc, graph)?,
    )
}

fn are_refusals_run(alloc: Global) -> Result<bool, Stop> {
    let mut graph = opened(alloc)?;
    stopped(runs_nothing_after_refusals(alloc, &mut graph))
}

#[test]
fn a_refused_edit_runs_nothing(rt: HostRuntime) -> Result<(), Fail> {
    assert!(rt; are_refusals_run(rt.alloc())?);
    Ok(())
}

fn takes_child_alone(alloc: Global, graph: &mut Graph) -> Result<bool, NoMemory> {
    let edit = Edit::SetParent {
        object: name(alloc, b"Child")?,
        parent: None,
    };
    takes(alloc, graph, 1, &edit)
}

/// World of Child has an in-link less.
fn runs_the_world_of_child(alloc: Global, graph: &mut Graph) -> Result<bool, NoMemory> {
    let is_run = runs(alloc, graph, 6, &[5], 4)?;
    Ok(is_run && shows(graph, 6, [5 * U, 0, 0], [2 * U, 0, 0]))
}

fn runs_an_edit_of_links(alloc: Global, graph: &mut Graph) -> Result<bool, NoMemory> {
    Ok(
        runs_the_first_frame(alloc, graph)?
            && takes_child_alone(alloc, graph)?
            && runs_the_world_of_child(alloc, graph)?,
    )
}

fn is_an_edit_of_links_run(alloc: Global) -> Result<bool, Stop> {
    let mut graph = opened(alloc)?;
    stopped(runs_an_edit_of_links(alloc, &mut graph))
}

#[test]
fn an_edit_of_links_keeps_outputs_by_operation(rt: HostRuntime) -> Result<(), Fail> {
    assert!(rt; is_an_edit_of_links_run(rt.alloc())?);
    Ok(())
}

fn crosses<T: Send>() {}

#[test]
fn a_graph_may_cross_threads() {
    crosses::<Graph>();
}

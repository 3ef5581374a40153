//! An evaluation up to the point from which nothing can fail: all that is tagged has run, and nothing of it is kept yet.
ghost use Rattle.std.specs.Prelude.{◌≡◌, ◌⊎◌, ◌≤◌, length, option_copied, IfOk, OnOk, OnErr, IsTrue, if◌then◌else◌};
ghost use Rattle.rig_flush.specs.Counted.{raised_by};
ghost use Rattle.rig_flush.specs.Evaluation.{marks_of};
ghost use Rattle.rig_flush.specs.Tables.{numbers_of};
ghost use Rattle.rig_rows.specs.Rows.{joined};
ghost use Rattle.rig_scene.specs.WellFormed.{is_frame};
ghost use Rattle.rig_graph.specs.LastPlan.{IsPlanOf, IsLast};
ghost use Rattle.rig_graph.specs.Parts.{IsCopy, IsPlanned};
ghost use Rattle.rig_graph.specs.Ready.{tagged_for, is_frame_of, CanRun, HasRun, IsReady, IsTold};

use crate::frame::{NextFrame, next_frame};
use crate::last_plan::LastPlan;
use crate::report::Report;
use crate::run::run_reached;
use crate::scene_copy::SceneCopy;
use rig_copies::Copies;
use rig_cut::NodeSet;
use rig_flush::Tags;
use rig_io::{List, NoMemory, Tally};
use rig_kernel::{Done, Out};
use rig_pending::Mark;
use rig_scene::{Mode, OpId};
use rig_workers::Watch;
use std::alloc::Global;

/// What an evaluation has ready to be kept and published.
#[derive(Drop)]
pub(crate) struct Ready {
    pub(crate) results: Vec<Out>,
    pub(crate) next: NextFrame,
    pub(crate) report: Report,
}

/// Tags the time where the frame is another than the last one, and runs what is tagged and all that needs it. What is kept is
/// unchanged, and has room for the results.
///
/// # Errors
///
/// [`NoMemory`] where memory is refused: the time may be tagged.
pub(crate) fn run_tagged<W: Watch, Y: Tally>(
    alloc: Global,
    copy: &SceneCopy,
    mode: Mode,
    frame: i32,
    published: Option<&Done>,
    fits: bool,
    tags: &mut Tags,
    last: &mut LastPlan,
    copies: &mut Copies,
    watch: &W,
    tally: &mut Y,
) -> Result<Ready, NoMemory>
    requires copy { IsCopy copy.now }
    requires frame { IsTrue (is_frame frame) }
    requires count { last.old.reached.count ≡ length copy.now.nodes }
    requires last { IsLast copy.now.links last.old }
    requires can_run { CanRun copy.now mode frame (tagged_for (option_copied published) frame tags.old) copies.old.kept }
    ensures tags { OnOk result (tags.new ≡ tagged_for (option_copied published.entry) frame tags.old) }
    ensures kept { copies.new.kept ≡ copies.old.kept }
    ensures plan { OnOk result (IsPlanOf copy.now.links (numbers_of copy.now.nodes (tagged_for (option_copied published.entry) frame tags.old)) last.new) }
    ensures last { IsLast copy.now.links last.new }
    ensures count { last.new.reached.count ≡ last.old.reached.count }
    ensures room { OnOk result (length last.new.plan ≤ copies.new.spare) }
    ensures ready { IfOk result (IsReady copy.now mode frame (tagged_for (option_copied published.entry) frame tags.old) copies.old.kept fits) }
    ensures tally { IfOk result (λ r. Y.count tally.new ≡ raised_by r.report.ran (Y.count tally.old)) }
    ensures err { OnErr result ((tags.new ≡ tags.old) ⊎ (tags.new ≡ tagged_for (option_copied published.entry) frame tags.old)) }
{
    tag_time(tags, published, frame)?;
    last.make(alloc, copy, tags)?;
    copies.reserve(last.plan.len())?;
    let (results, next, report) = evaluated(
        alloc,
        copy,
        mode,
        frame,
        fits,
        &last.reached,
        copies,
        watch,
        tally,
    )?;
    Ok(Ready {
        results,
        next,
        report,
    })
}

// Tags the time where the frame is another than the last one.
fn tag_time(tags: &mut Tags, published: Option<&Done>, frame: i32) -> Result<(), NoMemory>
    ensures ok { OnOk result (tags.new ≡ tagged_for (option_copied published.entry) frame tags.old) }
    ensures err { OnErr result (tags.new ≡ tags.old) }
{
    if is_frame_of(published, frame) {
        return Ok(());
    }
    tags.add(OpId::Time)
}

fn is_frame_of(published: Option<&Done>, frame: i32) -> bool
    ensures { result ≡ is_frame_of (option_copied published.entry) frame }
{
    match published {
        Some(done) => done.frame == frame,
        None => false,
    }
}

// The results of what runs, the frame that they make, and what is told of it.
fn evaluated<W: Watch, Y: Tally>(
    alloc: Global,
    copy: &SceneCopy,
    mode: Mode,
    frame: i32,
    fits: bool,
    reached: &NodeSet,
    copies: &mut Copies,
    watch: &W,
    tally: &mut Y,
) -> Result<(Vec<Out>, NextFrame, Report), NoMemory>
    requires copy { IsCopy copy.now }
    requires frame { IsTrue (is_frame frame) }
    requires count { reached.now.count ≡ length copy.now.nodes }
    requires planned { IsPlanned copy.now.scene mode frame copy.now.links.order reached.now.members copies.old.kept }
    ensures copies { copies.new ≡ copies.old }
    ensures run { IfOk result (λ r. HasRun copy.now mode frame reached.now.members copies.old.kept fits r.0.items r.1) }
    ensures report { IfOk result (λ r. IsTold copy.now reached.now.members r.2) }
    ensures tally { IfOk result (λ r. Y.count tally.new ≡ raised_by r.2.ran (Y.count tally.old)) }
{
    let results = run_reached(alloc, copy, mode, frame, reached, copies, watch, tally)?;
    let next = next_frame(
        alloc,
        copy,
        mode,
        frame,
        reached,
        results.as_slice(),
        copies,
        fits,
    )?;
    let report = report_of(alloc, copy, reached)?;
    Ok((results, next, report))
}

fn report_of(alloc: Global, copy: &SceneCopy, reached: &NodeSet) -> Result<Report, NoMemory>
    requires { reached.now.count ≡ length copy.now.nodes }
    ensures { IfOk result (IsTold copy.now reached.now.members) }
{
    let trace = trace_of(alloc, reached.as_slice())?;
    let operations = copy.nodes.len();
    Ok(Report {
        ran: reached.len() as u32,
        operations,
        links: copy.links.links(),
        trace,
    })
}

// Each operation starts and finishes before the next one.
fn trace_of(alloc: Global, numbers: &[u32]) -> Result<List<Mark>, NoMemory>
    ensures { IfOk result (λ trace. trace ≡ marks_of numbers.now) }
{
    let mut trace = Vec::with_capacity(alloc, 2 * numbers.len())?;
    for n in numbers {
        trace.push(Mark::Start(*n))?;
        trace.push(Mark::Finish(*n))?;
    }
    Ok(List::from(trace))
}

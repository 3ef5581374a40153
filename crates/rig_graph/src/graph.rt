//! The dependency graph of a scene.
ghost use Rattle.std.specs.Prelude.{◌≡◌, ◌<◌, ◌≤◌, ◌+◌, ◌^◌, [], length, filter, option_map, option_copied, Some, IfSome, IfOk, OnOk, OnErr, IsTrue, Contains, sum_by};
ghost use Rattle.std.specs.List.{All};
ghost use Rattle.rig_flush.specs.Evaluation.{IsEvaluation};
ghost use Rattle.rig_flush.specs.Graph.{Fresh, opened, taken, frame_of};
ghost use Rattle.rig_flush.specs.Retag.{is_one_of};
ghost use Rattle.rig_scene.specs.Operations.{operations};
ghost use Rattle.rig_scene.specs.WellFormed.{is_frame};
ghost use Rattle.rig_touch.specs.KeepsLinks.{keeps_links};
ghost use Rattle.rig_graph.specs.Report.{IsReport, IsLeft};
ghost use Rattle.rig_graph.specs.State.{state_of, published_of};
ghost use Rattle.rig_graph.specs.Taken.{CanTakeOne, CanTake, taken_all, IsTakenInPart};

use crate::frame::publish;
use crate::last_plan::LastPlan;
use crate::opening::{all_tags, no_copies};
use crate::ready::{Ready, run_tagged};
use crate::report::Report;
use crate::scene_copy::{SceneCopy, scene_copy};
use crate::taking::{Rebuilt, change_in_place, rebuild};
use rig_copies::Copies;
use rig_flush::Tags;
use rig_io::{List, NoMemory, Tally};
use rig_kernel::Done;
use rig_originals::Entry;
use rig_scene::{Mode, Scene};
use rig_touch::keeps_links;
use rig_workers::Watch;
use std::alloc::Global;
use std::marker::Model;

/// A dependency graph: a copy of a scene that follows the edits that it takes, and the outputs of its operations. Contracts see what
/// `specs/State.antt` says.
#[derive(Drop)]
pub struct Graph {
    mode: Mode,
    version: u32,
    copy: SceneCopy,
    tags: Tags,
    copies: Copies,
    last: LastPlan,
    published: Option<Done>,
    // Whether the published frame shows what is kept.
    fits: bool,
}

impl Model for Graph {
    ghost use Rattle.rig_flush.specs.Graph.{Fresh};
    ghost use Rattle.rig_graph.specs.LastPlan.{IsLast};
    ghost use Rattle.rig_graph.specs.Parts.{record_of, AreParts};
    ghost use Rattle.rig_graph.specs.State.{GraphRecord, state_of};

    ghost Value = { GraphRecord };

    ghost view = { λ g. record_of g.mode g.version g.copy g.tags g.copies.kept g.published };

    ghost invariant = { λ g. AreParts g.mode g.copy g.tags g.copies.kept g.last.reached.count g.published g.fits ×
        Fresh (state_of (record_of g.mode g.version g.copy g.tags g.copies.kept g.published)) × IsLast g.copy.links g.last };
}

impl Graph {
    /// A graph of a scene for a mode, with the version 0. Nothing is published, and all operations are tagged.
    ///
    /// # Errors
    ///
    /// [`NoMemory`] where memory is refused.
    pub fn open(alloc: Global, scene: Scene, mode: Mode) -> Result<Graph, NoMemory>
        ensures { IfOk result (λ graph. state_of graph ≡ opened scene mode) }
    {
        let copy = scene_copy(alloc, scene)?;
        let tags = all_tags(alloc, &copy.nodes)?;
        let copies = no_copies(alloc, copy.nodes.len())?;
        let last = LastPlan::new(alloc, copy.nodes.len())?;
        Ok(Graph {
            mode,
            version: 0,
            copy,
            tags,
            copies,
            last,
            published: None,
            fits: false,
        })
    }

    /// 0, or one more than the turn of the last entry that was taken.
    pub fn version(&self) -> u32
        ensures { result ≡ self.now.version }
    {
        self.version
    }

    /// The tagged operations: those that the next evaluation runs, with all that needs them.
    pub fn tags(&self) -> &Tags
        ensures tags { filter (is_one_of result.now) (operations self.now.copy) ≡ self.now.tags }
        ensures there { All (Contains (operations self.now.copy)) result.now }
    {
        &self.tags
    }

    /// The scene after the entries that were taken.
    pub fn scene(&self) -> &Scene
        ensures { result.now ≡ self.now.copy }
    {
        &self.copy.scene
    }

    /// The frame that was evaluated last: `None` exactly before the first one.
    pub fn published(&self) -> Option<&Done>
        ensures frame { option_map published_of (option_copied result) ≡ self.now.published }
        ensures mode { IfSome (option_copied result) (λ done. done.mode ≡ self.now.mode) }
    {
        self.published.as_ref()
    }

    /// Takes accepted edits, one after the other: the copy of the scene follows, and what they can change is tagged. An edit that can't
    /// change which operations there are or what they need takes time by what it touches. Any other one makes the tables of the scene anew.
    ///
    /// The caller guarantees that each turn is at least the version before it and below 2^32 - 1, and that each edit is accepted in its
    /// place.
    ///
    /// # Errors
    ///
    /// [`NoMemory`] where memory is refused: the entries before the one that found none are taken, as `version` tells.
    pub fn take(&mut self, alloc: Global, entries: &[Entry]) -> Result<(), NoMemory>
        requires { CanTake (state_of self.old) entries.now }
        ensures ok { OnOk result (state_of self.new ≡ taken_all (state_of self.old) entries.now) }
        ensures err { OnErr result (IsTakenInPart (state_of self.old) entries.now (state_of self.new)) }
    {
        for entry in entries {
            self.take_one(alloc, entry)?;
        }
        Ok(())
    }

    fn take_one(&mut self, alloc: Global, entry: &Entry) -> Result<(), NoMemory>
        requires { CanTakeOne (state_of self.old) entry.now }
        ensures ok { OnOk result (state_of self.new ≡ taken (state_of self.old) entry.now.edit entry.now.turn) }
        ensures err { OnErr result (state_of self.new ≡ state_of self.old) }
    {
        if keeps_links(&self.copy.scene, &entry.edit) {
            self.take_in_place(alloc, entry)
        } else {
            self.take_anew(alloc, entry)
        }
    }

    fn take_in_place(&mut self, alloc: Global, entry: &Entry) -> Result<(), NoMemory>
        requires can { CanTakeOne (state_of self.old) entry.now }
        requires keeps { IsTrue (keeps_links self.old.copy entry.now.edit) }
        ensures ok { OnOk result (state_of self.new ≡ taken (state_of self.old) entry.now.edit entry.now.turn) }
        ensures err { OnErr result (state_of self.new ≡ state_of self.old) }
    {
        change_in_place(alloc, &mut self.copy, &mut self.tags, &entry.edit)?;
        self.version = entry.turn + 1;
        Ok(())
    }

    fn take_anew(&mut self, alloc: Global, entry: &Entry) -> Result<(), NoMemory>
        requires { CanTakeOne (state_of self.old) entry.now }
        ensures ok { OnOk result (state_of self.new ≡ taken (state_of self.old) entry.now.edit entry.now.turn) }
        ensures err { OnErr result (state_of self.new ≡ state_of self.old) }
    {
        let Rebuilt { copy, tags, last } = rebuild(
            alloc,
            &self.copy,
            &self.tags,
            &mut self.copies,
            &entry.edit,
        )?;
        put_copy(&mut self.copy, copy);
        put_tags(&mut self.tags, tags);
        put_last(&mut self.last, last);
        self.fits = false;
        self.version = entry.turn + 1;
        Ok(())
    }

    /// Evaluates a frame from -1,000,000 to 1,000,000 and publishes it: what is tagged runs, with all that needs it. Where the frame is
    /// another than the last one, the time is tagged first. The operations run on the caller's thread, and the first of `tallies` counts
    /// them.
    ///
    /// The caller guarantees 1 to 64 tallies, each of which is at most 2^62.
    ///
    /// # Errors
    ///
    /// [`NoMemory`] where memory is refused: the published frame, what is kept and the copy are unchanged, and the time may be tagged.
    pub fn evaluate<W: Watch + Sync, Y: Tally + Send>(
        &mut self,
        alloc: Global,
        frame: i32,
        watch: &W,
        tallies: &mut [Y],
    ) -> Result<Report, NoMemory>
        requires frame { IsTrue (is_frame frame) }
        requires workers { (1 ≤ length tallies.old) × (length tallies.old ≤ 64) }
        requires counts { All (λ t. Y.count t ≤ 2 ^ 62) tallies.old }
        ensures course { IfOk result (λ report. IsEvaluation (state_of self.old) frame report.trace (state_of self.new)) }
        ensures published { OnOk result (self.new.published ≡ Some (frame_of self.old.copy self.old.mode frame)) }
        ensures tags { OnOk result (self.new.tags ≡ []) }
        ensures report { IfOk result (λ report. IsReport (state_of self.old) frame report) }
        ensures tallies { IfOk result (λ report. sum_by Y.count tallies.new ≡ sum_by Y.count tallies.old + report.ran) }
        ensures err { OnErr result (IsLeft self.old self.new frame) }
    {
        let tally = &mut tallies[0];
        let mode = self.mode;
        let fits = self.fits;
        let Ready {
            results,
            next,
            report,
        } = run_tagged(
            alloc,
            &self.copy,
            mode,
            frame,
            self.published.as_ref(),
            fits,
            &mut self.tags,
            &mut self.last,
            &mut self.copies,
            watch,
            tally,
        )?;
        self.copies.put_all(&self.last.plan, List::from(results));
        publish(&mut self.published, next, frame);
        self.fits = true;
        clear_tags(&mut self.tags);
        Ok(report)
    }
}

// Takes all tags away. Their table keeps its size, so it isn't gone through where nothing is tagged.
fn clear_tags(tags: &mut Tags)
    ensures { tags.new ≡ [] }
{
    if tags.len() > 0 {
        tags.clear();
    }
}

fn put_copy(place: &mut SceneCopy, copy: SceneCopy)
    ensures { place.new ≡ copy }
{
    *place = copy;
}

fn put_tags(place: &mut Tags, tags: Tags)
    ensures { place.new ≡ tags }
{
    *place = tags;
}

fn put_last(place: &mut LastPlan, last: LastPlan)
    ensures { place.new ≡ last }
{
    *place = last;
}

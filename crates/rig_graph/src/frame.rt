//! The frame that is published: made anew, or the last one with what ran in its place.
ghost use Rattle.std.specs.Prelude.{◌≡◌, ℕ, ◌<◌, ◌++◌, [], ◌∷◌, length, map, option_map, Some, IfOk, OnOk, IsSome, IsTrue};
ghost use Rattle.std.specs.List.{All};
ghost use Rattle.rig_scene.specs.Cut.{cuts};
ghost use Rattle.rig_graph.specs.NextFrame.{IsNextFrame, with_changes, frame_after, AreWithin, CanFollow};
ghost use Rattle.rig_graph.specs.Parts.{IsCopy, given_at, changes_of, changed};

use crate::at_links::given_at;
use crate::scene_copy::SceneCopy;
use rig_copies::Copies;
use rig_cut::NodeSet;
use rig_io::{List, NoMemory, Share};
use rig_kernel::{Done, Out};
use rig_scene::Mode;
use std::alloc::Global;

/// An output of a frame, and the place where it stands in it.
#[derive(Drop)]
pub(crate) struct Change {
    pub(crate) place: u32,
    pub(crate) out: Out,
}

/// What becomes of the published frame.
#[derive(Drop)]
pub(crate) enum NextFrame {
    /// Another one.
    Anew(Done),
    /// The same, with some outputs in the places of others.
    Changed(Vec<Change>),
}

/// The next frame: the last one with changes where `fits` says that it shows what is kept, and else another.
///
/// # Errors
///
/// [`NoMemory`] where memory is refused.
pub(crate) fn next_frame(
    alloc: Global,
    copy: &SceneCopy,
    mode: Mode,
    frame: i32,
    reached: &NodeSet,
    results: &[Out],
    copies: &Copies,
    fits: bool,
) -> Result<NextFrame, NoMemory>
    requires copy { IsCopy copy.now }
    requires count { reached.now.count ≡ length copy.now.nodes }
    requires one_each { length results.now ≡ length reached.now.members }
    requires there { All (λ n. IsSome (given_at reached.now.members results.now copies.now.kept n)) copy.now.shown.members }
    ensures { IfOk result (λ next. IsNextFrame copy.now mode frame reached.now.members results.now copies.now.kept fits next) }
{
    if fits {
        let changes = changes(alloc, &copy.shown, reached, results)?;
        Ok(NextFrame::Changed(changes))
    } else {
        let done = new_frame(alloc, copy, mode, frame, reached, results, copies)?;
        Ok(NextFrame::Anew(done))
    }
}

// What ran and is shown, each with its place.
fn changes(
    alloc: Global,
    shown: &NodeSet,
    reached: &NodeSet,
    results: &[Out],
) -> Result<Vec<Change>, NoMemory>
    requires count { reached.now.count ≡ shown.now.count }
    requires one_each { length results.now ≡ length reached.now.members }
    ensures { IfOk result (λ changes. changes.items ≡ changes_of shown.now.members reached.now.members results.now) }
{
    let mut changes = Vec::new(alloc);
    for index in 0..reached.len() {
        add_change(&mut changes, shown, reached.get(index), &results[index])?;
    }
    Ok(changes)
}

// Adds the result of a number, where it is shown.
fn add_change(changes: &mut Vec<Change>, shown: &NodeSet, n: u32, out: &Out) -> Result<(), NoMemory>
    requires { n < shown.now.count }
    ensures { OnOk result (changes.new.items ≡ changes.old.items ++ changes_of shown.now.members (n ∷ []) (out.now ∷ [])) }
{
    if let Some(place) = shown.position(n) {
        let out = out.share()?;
        changes.push(Change { place, out })?;
    }
    Ok(())
}

// All that is shown.
fn new_frame(
    alloc: Global,
    copy: &SceneCopy,
    mode: Mode,
    frame: i32,
    reached: &NodeSet,
    results: &[Out],
    copies: &Copies,
) -> Result<Done, NoMemory>
    requires copy { IsCopy copy.now }
    requires count { reached.now.count ≡ length copy.now.nodes }
    requires there { All (λ n. IsSome (given_at reached.now.members results.now copies.now.kept n)) copy.now.shown.members }
    ensures head { IfOk result (λ done. (done.frame ≡ frame) × (done.mode ≡ mode)) }
    ensures cuts { IfOk result (λ done. done.cuts ≡ cuts copy.now.scene) }
    ensures outs { IfOk result (λ done. map Some done.outs ≡ map (given_at reached.now.members results.now copies.now.kept) copy.now.shown.members) }
{
    let cuts = copy.links.cut_reads(alloc, &copy.nodes)?;
    let mut done = Done::new(alloc, frame, mode, cuts);
    add_shown(&mut done, copy.shown.as_slice(), reached, results, copies)?;
    Ok(done)
}

fn add_shown(
    done: &mut Done,
    shown: &[u32],
    reached: &NodeSet,
    results: &[Out],
    copies: &Copies,
) -> Result<(), NoMemory>
    requires within { All (λ n. n < reached.now.count) shown.now }
    requires there { All (λ n. IsSome (given_at reached.now.members results.now copies.now.kept n)) shown.now }
    ensures outs { OnOk result (map Some done.new.outs ≡ map Some done.old.outs ++
        map (given_at reached.now.members results.now copies.now.kept) shown.now) }
    ensures head { OnOk result ((done.new.frame ≡ done.old.frame) × (done.new.mode ≡ done.old.mode)) }
    ensures cuts { OnOk result (done.new.cuts ≡ done.old.cuts) }
{
    for n in shown {
        done.add(there_at(*n, reached, results, copies).share()?)?;
    }
    Ok(())
}

fn there_at<'a>(n: u32, reached: &NodeSet, results: &'a [Out], copies: &'a Copies) -> &'a Out
    requires within { n < reached.now.count }
    requires there { IsSome (given_at reached.now.members results.now copies.now.kept n) }
    ensures { given_at reached.now.members results.now copies.now.kept n ≡ Some result.now }
{
    given_at(n, reached, results, copies).unwrap()
}

/// Publishes the next frame, with no allocation.
pub(crate) fn publish(published: &mut Option<Done>, next: NextFrame, frame: i32)
    requires { CanFollow published.old next }
    ensures { published.new ≡ frame_after published.old next frame }
{
    match next {
        NextFrame::Anew(done) => *published = Some(done),
        NextFrame::Changed(changes) => change_frame(published, changes, frame),
    }
}

fn change_frame(published: &mut Option<Done>, changes: Vec<Change>, frame: i32)
    requires { AreWithin published.old changes.items }
    ensures { published.new ≡ option_map (λ d. with_changes d frame changes.items) published.old }
{
    if let Some(done) = published.as_mut() {
        done.frame = frame;
        change_outs(&mut done.outs, changes);
    }
}

fn change_outs(outs: &mut List<Out>, changes: Vec<Change>)
    requires { All (λ c. c.place < length outs.old) changes.items }
    ensures { outs.new ≡ changed outs.old changes.items }
{
    for change in changes {
        let Change { place, out } = change;
        outs.set(place as usize, out);
    }
}

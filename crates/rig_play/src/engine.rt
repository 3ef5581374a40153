//! The plain incremental engine: owns a plain scene, edits it, and evaluates again just what is flushed.
ghost use Rattle.std.specs.Prelude.{◌≡◌, ◌<◌, ◌≤◌, ℕ, ℤ, ◌+◌, ◌*◌, length, map, List, [], IsTrue, IfOk, OnOk, OnErr, Some, None, false, ◌&&◌, is_some, position, sum_by, if◌then◌else◌};
ghost use Rattle.std.specs.Option.{ForSome};
ghost use Rattle.rig_io.specs.Faults.{count_end};
ghost use Rattle.rig_scene.specs.declared.limits.TheConstants.{MAX_OBJECTS};
ghost use Rattle.rig_scene.specs.declared.modifier.Mode.{Mode};
ghost use Rattle.rig_scene.specs.Cut.{cuts};
ghost use Rattle.rig_scene.specs.Operations.{operations};
ghost use Rattle.rig_scene.specs.Text.{same_text};
ghost use Rattle.rig_edits.specs.Conditions.{first_cause};
ghost use Rattle.rig_edits.specs.declared.change.TheConstants.{MAX_NEXT};
ghost use Rattle.rig_play.specs.Flush.{flushed, is_first, is_moved};
ghost use Rattle.rig_play.specs.Output.{worlds_at};
ghost use Rattle.rig_play.specs.Plain.{is_plain_scene};
ghost use Rattle.rig_play.specs.PlainScript.{is_plain_edit};
ghost use Rattle.rig_play.specs.Stands.{all_stand, is_reached, object_count, object_ran, objects_ran, plain_world, stand};
ghost use Rattle.rig_play.specs.State.{after_edit, after_frame, index_set, object_index, opening, with_mark};

use crate::animation::world_at;
use rig_edits::{Edit, EditCause, EditStop, IdName, apply};
use rig_fixed::Xform;
use rig_io::{List, NoMemory, Tally};
use rig_scene::{Name, Object, Scene};
use std::alloc::Global;
use std::marker::Model;

/// A plain scene with where each of its objects stood at the last frame step, and which were set since. Contracts see it as the
/// state of a play.
#[derive(Drop)]
pub(crate) struct Engine {
    scene: Scene,
    // Whether each object was set since the last frame step.
    marks: List<bool>,
    // Where each object stood at the last frame step.
    worlds: List<Xform>,
    // The frame of the last frame step.
    last: Option<i32>,
}

impl Model for Engine {
    ghost use Rattle.rig_play.specs.State.{PlayState};
    ghost use Rattle.rig_play.specs.Stands.{Stands};

    ghost Value = { PlayState };

    ghost view = { λ e. record { scene = e.scene; set = e.marks; last = e.last } };

    ghost invariant = { λ e. Stands e.scene e.marks e.worlds e.last };
}

/// What a pass over the objects evaluates.
#[derive(Clone, Copy)]
struct Pass {
    frame: i32,
    // Whether it is the first pass, which evaluates everything.
    first: bool,
    // Whether the frame is another one than at the pass before.
    moved: bool,
}

impl Engine {
    /// The engine of a plain scene before any step.
    pub(crate) fn open(alloc: Global, scene: Scene) -> Result<Engine, NoMemory>
        requires plain { IsTrue (is_plain_scene scene) }
        requires next { scene.next < MAX_NEXT }
        ensures { IfOk result (λ engine. engine ≡ opening scene) }
    {
        let mut marks = List::new(alloc);
        let mut worlds = List::new(alloc);
        for _object in scene.objects.as_slice() {
            marks.push(false)?;
            worlds.push(Xform::identity())?;
        }
        Ok(Engine {
            scene,
            marks,
            worlds,
            last: None,
        })
    }

    /// The scene after the edits so far.
    pub(crate) fn scene(&self) -> &Scene
        ensures { result.now ≡ self.now.scene }
    {
        &self.scene
    }

    /// Takes an edit, and answers the first cause where it is refused.
    pub(crate) fn edit(&mut self, alloc: Global, edit: &Edit) -> Result<Option<EditCause>, NoMemory>
        requires { IsTrue (is_plain_edit edit.now) }
        ensures cause { IfOk result (λ cause. cause ≡ first_cause self.old.scene edit.now) }
        ensures state { OnOk result (self.new ≡ after_edit self.old edit.now) }
        ensures unchanged { OnErr result (self.new ≡ self.old) }
    {
        let index = index_of(&self.scene, edit);
        match apply(alloc, &mut self.scene, edit) {
            Ok(()) => {
                mark(&mut self.marks, index);
                Ok(None)
            }
            Err(EditStop::Refused(cause)) => Ok(Some(cause)),
            Err(EditStop::NoMemory) => Err(NoMemory),
        }
    }

    /// Evaluates a frame: runs the flushed operations, each with one tick, and answers how many ran. It takes no memory.
    pub(crate) fn evaluate<Y: Tally>(&mut self, frame: i32, tally: &mut Y) -> u32
        requires { Y.count tally.old + 1 + 3 * MAX_OBJECTS ≤ count_end }
        ensures state { self.new ≡ after_frame self.old frame }
        ensures ran { result ≡ length (flushed self.old frame) }
        ensures ticks { Y.count tally.new ≡ Y.count tally.old + result }
        ensures within { result ≤ 1 + 3 * MAX_OBJECTS }
    {
        let pass = Pass::of(self.last, frame);
        let time = run_time(pass, tally);
        let objects = run_objects(&self.scene, pass, &mut self.marks, &mut self.worlds, tally);
        self.last = Some(frame);
        time + objects
    }

    /// Where each object stands in the world at the last frame, where no edit came since: what is evaluated from scratch. No read of
    /// a plain scene is cut.
    pub(crate) fn worlds(&self) -> &[Xform]
        ensures worlds { (mode : Mode) (frame : ℤ) → self.now.last ≡ Some frame → self.now.set ≡ map (λ _. false) self.now.set →
            result.now ≡ worlds_at self.now.scene mode frame }
        ensures count { length result.now ≡ length self.now.scene.objects }
        ensures uncut { cuts self.now.scene ≡ [] }
    {
        self.worlds.as_slice()
    }

    /// The number of operations of the scene: 1, and 2 or 3 for each of its objects, of which there are at most 1,024.
    pub(crate) fn operation_count(&self) -> u32
        ensures { result ≡ length (operations self.now.scene) }
    {
        count_operations(&self.scene)
    }
}

fn count_operations(scene: &Scene) -> u32
    ensures { result ≡ 1 + sum_by object_count scene.now.objects }
{
    let mut count = 1;
    for object in scene.objects.as_slice() {
        count += object_count(object);
    }
    count
}

fn object_count(object: &Object) -> u32
    ensures count { result ≡ object_count object.now }
    ensures few { result ≤ 3 }
{
    if object.action.is_some() { 3 } else { 2 }
}

// The index of the object of which an edit sets a number.
fn index_of(scene: &Scene, edit: &Edit) -> Option<usize>
    ensures index { result ≡ index_set scene.now edit.now }
    ensures within { ForSome result (λ index. index < length scene.now.objects) }
{
    match edit {
        Edit::SetValue { id, .. } => object_index(scene, id),
        _ => None,
    }
}

fn object_index(scene: &Scene, id: &IdName) -> Option<usize>
    ensures index { result ≡ object_index scene.now id.now }
    ensures within { ForSome result (λ index. index < length scene.now.objects) }
{
    match id {
        IdName::Object(name) => index_named(scene.objects.as_slice(), name),
        IdName::Pencil(_) => None,
    }
}

fn index_named(objects: &[Object], name: &Name) -> Option<usize>
    ensures index { result ≡ position (λ o. same_text o.name name.now) objects.now }
    ensures within { ForSome result (λ index. index < length objects.now) }
{
    objects.iter().position(|object| object.name == *name)
}

fn mark(marks: &mut List<bool>, index: Option<usize>)
    requires { ForSome index (λ i. i < length marks.old) }
    ensures { marks.new ≡ with_mark index marks.old }
{
    if let Some(index) = index {
        marks.set(index, true);
    }
}

impl Pass {
    // The pass at a frame, after one at the frame `last`.
    fn of(last: Option<i32>, frame: i32) -> Pass
        ensures { result ≡ record { frame = frame; first = is_first last; moved = is_moved last frame } }
    {
        match last {
            None => Pass {
                frame,
                first: true,
                moved: true,
            },
            Some(last) => Pass {
                frame,
                first: false,
                moved: last != frame,
            },
        }
    }

    // Whether the transforms of an object are evaluated.
    fn reaches(self, object: &Object, was_set: bool) -> bool
        ensures { result ≡ is_reached self.first self.moved object.now was_set }
    {
        self.first || (self.moved && object.action.is_some()) || was_set
    }
}

// Runs what is flushed of each object, and takes the marks off. Answers how many operations ran.
fn run_objects<Y: Tally>(
    scene: &Scene,
    pass: Pass,
    marks: &mut List<bool>,
    worlds: &mut List<Xform>,
    tally: &mut Y,
) -> u32
    requires marks { length marks.old ≡ length scene.now.objects }
    requires worlds { length worlds.old ≡ length scene.now.objects }
    requires room { Y.count tally.old + 3 * length scene.now.objects ≤ count_end }
    ensures ran { result ≡ objects_ran pass.first pass.moved scene.now.objects marks.old }
    ensures worlds { worlds.new ≡ all_stand scene.now pass.first pass.moved pass.frame scene.now.objects marks.old worlds.old }
    ensures marks { marks.new ≡ map (λ _. false) marks.old }
    ensures ticks { Y.count tally.new ≡ Y.count tally.old + result }
    ensures within { result ≤ 3 * length scene.now.objects }
    ensures few { result ≤ 3 * MAX_OBJECTS }
{
    let mut ran = 0;
    for index in 0..scene.objects.len() {
        let object = scene.objects.get(index);
        let was_set = *marks.get(index);
        ran += run_object(scene, object, was_set, pass, worlds.get_mut(index), tally);
        marks.set(index, false);
    }
    ran
}

// Runs the time, where the frame moved. Answers how many operations ran.
fn run_time<Y: Tally>(pass: Pass, tally: &mut Y) -> u32
    requires { Y.count tally.old + 1 ≤ count_end }
    ensures ran { result ≡ (if pass.moved then 1 else 0) }
    ensures ticks { Y.count tally.new ≡ Y.count tally.old + result }
{
    if pass.moved {
        tally.tick();
        1
    } else {
        0
    }
}

// Runs what is flushed of an object. Answers how many operations ran.
fn run_object<Y: Tally>(
    scene: &Scene,
    object: &Object,
    was_set: bool,
    pass: Pass,
    world: &mut Xform,
    tally: &mut Y,
) -> u32
    requires { Y.count tally.old + 3 ≤ count_end }
    ensures ran { result ≡ object_ran pass.first pass.moved object.now was_set }
    ensures stands { world.new ≡ stand scene.now pass.first pass.moved pass.frame object.now was_set world.old }
    ensures ticks { Y.count tally.new ≡ Y.count tally.old + result }
{
    let animation = run_animation(object, pass, tally);
    if !pass.reaches(object, was_set) {
        return animation;
    }
    // Local, and then World, which is equal to it: no object has a parent.
    tally.tick();
    *world = world_at(scene, object, pass.frame);
    tally.tick();
    animation + 2
}

// Runs the animation of an object, where it has one and the frame moved. Answers how many operations ran.
fn run_animation<Y: Tally>(object: &Object, pass: Pass, tally: &mut Y) -> u32
    requires { Y.count tally.old + 1 ≤ count_end }
    ensures ran { result ≡ (if pass.moved && is_some object.now.action then 1 else 0) }
    ensures ticks { Y.count tally.new ≡ Y.count tally.old + result }
{
    if pass.moved && object.action.is_some() {
        tally.tick();
        1
    } else {
        0
    }
}

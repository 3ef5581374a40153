//! Plays an input: the steps of its track in order, over the plain engine, each with its reply.
ghost use Rattle.std.specs.Prelude.{◌≡◌, ◌+◌, ◌*◌, ◌≤◌, ◌<◌, ◌^◌, ◌++◌, Bool, [], ◌∷◌, Some, map, false, IsTrue, IfOk, OnOk, length};
ghost use Rattle.std.specs.List.{list_all};
ghost use Rattle.rig_io.specs.Faults.{count_end};
ghost use Rattle.rig_scene.specs.declared.limits.TheConstants.{MAX_OBJECTS, MAX_STEPS};
ghost use Rattle.rig_edits.specs.declared.change.TheConstants.{MAX_NEXT};
ghost use Rattle.rig_scriptjson.specs.declared.script.Step.TheVariants.{Edit as edit_step, Frame as frame_step};
ghost use Rattle.rig_scene.specs.declared.modifier.Mode.{Mode};
ghost use Rattle.rig_text.specs.History.{history_lines};
ghost use Rattle.rig_play.specs.Flush.{flushed};
ghost use Rattle.rig_play.specs.Made.{IsOpening, Took, TookAll, whole_text};
ghost use Rattle.rig_play.specs.Output.{after_step, edit_reply, frame_of, mode_of, output_text, ran_at, ran_from, ran_in, track_lines};
ghost use Rattle.rig_play.specs.Plain.{is_plain_scene};
ghost use Rattle.rig_play.specs.PlainScript.{is_plain_edit, is_plain_step, is_plain_track};
ghost use Rattle.rig_play.specs.State.{after_frame, opening};

use crate::engine::Engine;
use crate::input::Input;
use rig_edits::{Edit, EditCause};
use rig_io::{NoMemory, Tally};
use rig_scene::{Mode, Scene};
use rig_scriptjson::{Step, Track};
use rig_text::{Reply, Turn, edit_text, frame_step_text, frame_text, history_text, track_text};
use std::alloc::Global;

/// The turns that were taken, and the texts of the track.
#[derive(Drop)]
pub(crate) struct Output {
    turns: Vec<Turn>,
    texts: Vec<Vec<u8>>,
}

/// Plays an input, with one tick for each operation that runs. The texts, one after another, are the output: the history, and
/// then the track. There are none without a track.
pub(crate) fn play<Y: Tally>(
    alloc: Global,
    input: Input,
    tally: &mut Y,
) -> Result<Vec<Vec<u8>>, NoMemory>
    requires room { Y.count tally.old ≤ 2 ^ 61 }
    ensures text { IfOk result (λ texts. whole_text texts.items ≡ output_text input.scene input.script.tracks) }
    ensures ticks { OnOk result (Y.count tally.new ≡ Y.count tally.old + ran_in input.scene input.script.tracks) }
    ensures rises { Y.count tally.old ≤ Y.count tally.new }
    ensures at_most { Y.count tally.new ≤ Y.count tally.old + ran_in input.scene input.script.tracks }
{
    let Input { scene, script } = input;
    match script.tracks.as_slice().first() {
        Some(track) => play_track(alloc, scene, track, tally),
        None => Ok(Vec::new(alloc)),
    }
}

// Plays a track over its opening scene.
fn play_track<Y: Tally>(
    alloc: Global,
    scene: Scene,
    track: &Track,
    tally: &mut Y,
) -> Result<Vec<Vec<u8>>, NoMemory>
    requires scene { IsTrue (is_plain_scene scene) }
    requires next { scene.next < MAX_NEXT }
    requires track { IsTrue (is_plain_track track.now) }
    requires steps { length track.now.steps ≤ MAX_STEPS }
    requires room { Y.count tally.old ≤ 2 ^ 61 }
    ensures text { IfOk result (λ texts. whole_text texts.items ≡ track_lines scene track.now) }
    ensures ticks { OnOk result (Y.count tally.new ≡ Y.count tally.old + ran_from (opening scene) track.now.steps) }
    ensures rises { Y.count tally.old ≤ Y.count tally.new }
    ensures at_most { Y.count tally.new ≤ Y.count tally.old + ran_from (opening scene) track.now.steps }
{
    let mut engine = Engine::open(alloc, scene)?;
    let mut output = Output::new(alloc, track.mode)?;
    let mode = mode_of(track);
    play_steps(
        alloc,
        mode,
        track.steps.as_slice(),
        &mut engine,
        &mut output,
        tally,
    )?;
    output.into_texts(alloc)
}

// The mode of a track's frames. One that owns no mode has no frames.
fn mode_of(track: &Track) -> Mode
    ensures { result ≡ mode_of track.now }
{
    track.mode.unwrap_or(Mode::Viewport)
}

impl Output {
    // Before the first step: the head of the track.
    fn new(alloc: Global, mode: Option<Mode>) -> Result<Output, NoMemory>
        ensures { IfOk result (λ output. IsOpening mode output) }
    {
        let head = track_text(alloc, 0, mode)?;
        let mut texts = Vec::new(alloc);
        texts.push(head)?;
        Ok(Output {
            turns: Vec::new(alloc),
            texts,
        })
    }

    // Adds the turn that a step of the one track takes.
    fn add_turn(&mut self, step: u32, reply: Reply) -> Result<(), NoMemory>
        ensures turn { OnOk result (self.new.turns.items ≡ self.old.turns.items ++ record { track = 0; step = step; reply = reply } ∷ []) }
        ensures text { OnOk result (whole_text self.new.texts.items ≡ whole_text self.old.texts.items) }
    {
        let turn = Turn {
            track: 0,
            step,
            reply,
        };
        self.turns.push(turn)?;
        Ok(())
    }

    fn add_text(&mut self, text: Vec<u8>) -> Result<(), NoMemory>
        ensures turns { OnOk result (self.new.turns.items ≡ self.old.turns.items) }
        ensures text { OnOk result (whole_text self.new.texts.items ≡ whole_text self.old.texts.items ++ text.items) }
    {
        self.texts.push(text)?;
        Ok(())
    }

    // The history, and then the texts of the track.
    fn into_texts(self, alloc: Global) -> Result<Vec<Vec<u8>>, NoMemory>
        requires { length self.turns.items ≤ MAX_STEPS }
        ensures { IfOk result (λ texts. whole_text texts.items ≡ history_lines self.turns.items ++ whole_text self.texts.items) }
    {
        let history = history_text(alloc, self.turns.as_slice())?;
        let mut texts = self.texts;
        texts.insert(0, history)?;
        Ok(texts)
    }
}

// Takes the steps of a track in order. On each return what was counted is no more than what runs in all.
fn play_steps<Y: Tally>(
    alloc: Global,
    mode: Mode,
    steps: &[Step],
    engine: &mut Engine,
    output: &mut Output,
    tally: &mut Y,
) -> Result<(), NoMemory>
    requires plain { IsTrue (list_all is_plain_step steps.now) }
    requires few { length steps.now ≤ MAX_STEPS }
    requires room { Y.count tally.old ≤ 2 ^ 61 }
    ensures taken { OnOk result (TookAll mode 0 engine.old steps.now output.old output.new) }
    ensures ticks { OnOk result (Y.count tally.new ≡ Y.count tally.old + ran_from engine.old steps.now) }
    ensures rises { Y.count tally.old ≤ Y.count tally.new }
    ensures at_most { Y.count tally.new ≤ Y.count tally.old + ran_from engine.old steps.now }
{
    for i in 0..steps.len() {
        take(alloc, mode, i as u32, &steps[i], engine, output, tally)?;
    }
    Ok(())
}

// Takes one step, which takes the turn of its number.
fn take<Y: Tally>(
    alloc: Global,
    mode: Mode,
    number: u32,
    step: &Step,
    engine: &mut Engine,
    output: &mut Output,
    tally: &mut Y,
) -> Result<(), NoMemory>
    requires plain { IsTrue (is_plain_step step.now) }
    requires room { Y.count tally.old + 1 + 3 * MAX_OBJECTS ≤ count_end }
    ensures taken { OnOk result (Took mode number engine.old step.now output.old output.new) }
    ensures state { OnOk result (engine.new ≡ after_step engine.old step.now) }
    ensures ticks { OnOk result (Y.count tally.new ≡ Y.count tally.old + ran_at engine.old step.now) }
    ensures rises { Y.count tally.old ≤ Y.count tally.new }
    ensures at_most { Y.count tally.new ≤ Y.count tally.old + ran_at engine.old step.now }
    ensures few { Y.count tally.new ≤ Y.count tally.old + 1 + 3 * MAX_OBJECTS }
{
    match step {
        Step::Edit(edit) => take_edit(alloc, number, edit, engine, output),
        Step::Frame { frame, .. } => take_frame(alloc, mode, number, *frame, engine, output, tally),
    }
}

// Takes an edit, which is applied or refused.
fn take_edit(
    alloc: Global,
    number: u32,
    edit: &Edit,
    engine: &mut Engine,
    output: &mut Output,
) -> Result<(), NoMemory>
    requires { IsTrue (is_plain_edit edit.now) }
    ensures taken { (mode : Mode) → OnOk result (Took mode number engine.old (edit_step edit.now) output.old output.new) }
    ensures state { OnOk result (engine.new ≡ after_step engine.old (edit_step edit.now)) }
{
    let cause = engine.edit(alloc, edit)?;
    let text = edit_text(alloc, number, number, cause)?;
    output.add_turn(number, edit_reply(cause))?;
    output.add_text(text)?;
    Ok(())
}

fn edit_reply(cause: Option<EditCause>) -> Reply
    ensures { result ≡ edit_reply cause }
{
    match cause {
        None => Reply::Accepted,
        Some(cause) => Reply::Refused(cause),
    }
}

// Evaluates a frame.
fn take_frame<Y: Tally>(
    alloc: Global,
    mode: Mode,
    number: u32,
    frame: i32,
    engine: &mut Engine,
    output: &mut Output,
    tally: &mut Y,
) -> Result<(), NoMemory>
    requires { Y.count tally.old + 1 + 3 * MAX_OBJECTS ≤ count_end }
    ensures taken { (full : Bool) → OnOk result (Took mode number engine.old (frame_step frame full) output.old output.new) }
    ensures state { OnOk result (engine.new ≡ after_frame engine.old frame) }
    ensures ticks { Y.count tally.new ≡ Y.count tally.old + length (flushed engine.old frame) }
    ensures few { Y.count tally.new ≤ Y.count tally.old + 1 + 3 * MAX_OBJECTS }
{
    let all = engine.operation_count();
    let ran = engine.evaluate(frame, tally);
    let line = frame_step_text(alloc, number, frame, number, ran, all)?;
    let text = evaluated_text(alloc, mode, frame, engine)?;
    output.add_turn(number, Reply::Looked)?;
    output.add_text(line)?;
    output.add_text(text)?;
    Ok(())
}

// The text of the frame that was evaluated last. No read of a plain scene is cut.
fn evaluated_text(
    alloc: Global,
    mode: Mode,
    frame: i32,
    engine: &Engine,
) -> Result<Vec<u8>, NoMemory>
    requires last { engine.now.last ≡ Some frame }
    requires unset { engine.now.set ≡ map (λ _. false) engine.now.set }
    ensures { IfOk result (λ text. text.items ≡ frame_of engine.now.scene mode frame) }
{
    let objects = engine.scene().objects.as_slice();
    frame_text(alloc, mode, frame, 0, objects, engine.worlds())
}

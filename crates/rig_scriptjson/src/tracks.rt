//! Reads tracks.
ghost use Rattle.std.specs.Prelude.{◌≡◌, ◌-◌, ◌++◌, [], ◌∷◌, option_map, OnOk};
ghost use Rattle.std.specs.List.{list_any};
ghost use Rattle.serde_json.specs.View.{view};
ghost use Rattle.rig_scenejson.specs.declared.member.Member.TheVariants as m;
ghost use Rattle.rig_scenejson.specs.Given.{items_at, text_at, values};
ghost use Rattle.rig_scenejson.specs.PassOne.{list_faults};
ghost use Rattle.rig_scenejson.specs.Tests.{Reads, field, first, items_after, optional, required};
ghost use Rattle.rig_scenejson.specs.Value.{item_count, text_of};
ghost use Rattle.rig_scriptjson.specs.EditGiven.{mode_of};
ghost use Rattle.rig_scriptjson.specs.Script.{after_step, after_track, mode_faults, modes_after, no_tracks};
ghost use Rattle.rig_scriptjson.specs.Script.{same_mode, step_faults, step_given, track_faults, track_given};

use crate::before::TracksBefore;
use crate::lists::{ItemReader, items_in};
use crate::members::word_of;
use crate::objects::mode_of;
use crate::script::{Step, Track};
use crate::steps::StepReader;
use rig_io::List;
use rig_scene::Mode;
use rig_scene::limits::{MAX_FULL_FRAMES, MAX_STEPS};
use rig_scenejson::{Cause, Hop, Member, SceneStop, field, is_record, stop_for, within};
use serde_json::Value;
use std::alloc::Global;

/// Reads the tracks of a script, of which there may be so many.
pub(crate) fn read_tracks(
    alloc: Global,
    value: &Value,
    most: usize,
) -> Result<List<Track>, SceneStop>
    ensures { Reads result (values track_given (items_at m.Tracks (view value.now)))
        (first (optional m.Tracks (list_faults 0 most track_faults after_track no_tracks) (view value.now))) }
{
    match field(value, Member::Tracks) {
        Some(found) => {
            let read = items_in(alloc, 0, most, &TrackReader, &mut no_tracks(alloc), found);
            within(alloc, Hop::Member(Member::Tracks), read)
        }
        None => Ok(List::new(alloc)),
    }
}

fn no_tracks(alloc: Global) -> TracksBefore
    ensures { result ≡ no_tracks }
{
    TracksBefore {
        modes: List::new(alloc),
        steps_left: MAX_STEPS,
        full_left: MAX_FULL_FRAMES,
    }
}

/// Reads a track.
#[derive(Clone, Copy, Drop)]
struct TrackReader;

impl ItemReader for TrackReader {
    type Item = Track;

    type Before = TracksBefore;

    ghost gives = { track_given };

    ghost faults = { λ _. track_faults };

    ghost next = { after_track };

    fn read(
        &self,
        alloc: Global,
        before: &mut TracksBefore,
        value: &Value,
    ) -> Result<Track, SceneStop> {
        is_record(alloc, value)?;
        let mode = read_mode(alloc, &mut before.modes, value)?;
        let steps = read_steps(alloc, mode.is_some(), before, value)?;
        Ok(Track { mode, steps })
    }
}

/// The mode of a track, which no earlier track may own.
fn read_mode(
    alloc: Global,
    modes: &mut List<Mode>,
    value: &Value,
) -> Result<Option<Mode>, SceneStop>
    ensures read { Reads result (option_map (λ w. mode_of (text_of w)) (field m.Mode (view value.now)))
        (first (optional m.Mode (mode_faults modes.old) (view value.now))) }
    ensures next { OnOk result (modes.new ≡ modes_after modes.old (view value.now)) }
{
    match field(value, Member::Mode) {
        Some(_) => Ok(Some(mode_in(alloc, modes, value)?)),
        None => Ok(None),
    }
}

#[tactic(auto, using(crate::proofs::First::reads_moved))]
fn mode_in(alloc: Global, modes: &mut List<Mode>, value: &Value) -> Result<Mode, SceneStop>
    ensures read { Reads result (mode_of (text_at m.Mode (view value.now)))
        (first (required m.Mode (mode_faults modes.old) (view value.now))) }
    ensures next { OnOk result (modes.new ≡ modes.old ++ mode_of (text_at m.Mode (view value.now)) ∷ []) }
{
    let read = match field(value, Member::Mode) {
        Some(found) => new_mode(alloc, modes, found),
        None => Err(stop_for(alloc, Cause::Missing)),
    };
    within(alloc, Hop::Member(Member::Mode), read)
}

fn new_mode(alloc: Global, modes: &mut List<Mode>, value: &Value) -> Result<Mode, SceneStop>
    ensures read { Reads result (mode_of (text_of (view value.now))) (first (mode_faults modes.old (view value.now))) }
    ensures next { OnOk result (modes.new ≡ modes.old ++ mode_of (text_of (view value.now)) ∷ []) }
{
    word_of(alloc, &["viewport", "render"], value)?;
    let mode = mode_of(text_of(value));
    if is_owned(modes.as_slice(), mode) {
        return Err(stop_for(alloc, Cause::Duplicate));
    }
    modes.push(mode)?;
    Ok(mode)
}

fn text_of(value: &Value) -> &str
    ensures { result.now ≡ text_of (view value.now) }
{
    value.as_str().unwrap_or("")
}

fn is_owned(modes: &[Mode], mode: Mode) -> bool
    ensures { result ≡ list_any (same_mode mode) modes.now }
{
    modes.iter().any(|owned| is_same(mode, *owned))
}

fn is_same(mode: Mode, other: Mode) -> bool
    ensures { result ≡ same_mode mode other }
{
    match mode {
        Mode::Viewport => other == Mode::Viewport,
        Mode::Render => other == Mode::Render,
    }
}

/// The steps of a track, of those that the script may still have.
#[tactic(auto, using(crate::proofs::First::reads_moved, crate::proofs::Items::length_of_values))]
fn read_steps(
    alloc: Global,
    has_mode: bool,
    before: &mut TracksBefore,
    value: &Value,
) -> Result<List<Step>, SceneStop>
    ensures read { Reads result (values step_given (items_at m.Steps (view value.now)))
        (first (optional m.Steps (list_faults 0 before.old.steps_left (step_faults has_mode) after_step before.old.full_left)
        (view value.now))) }
    ensures next { OnOk result (before.new ≡ record before.old {
      steps_left = before.old.steps_left - item_count (items_at m.Steps (view value.now));
      full_left = items_after after_step before.old.full_left (items_at m.Steps (view value.now));
    }) }
{
    match field(value, Member::Steps) {
        Some(found) => {
            let reader = StepReader { has_mode };
            let read = items_in(
                alloc,
                0,
                before.steps_left,
                &reader,
                &mut before.full_left,
                found,
            );
            let steps = within(alloc, Hop::Member(Member::Steps), read)?;
            before.steps_left -= steps.len();
            Ok(steps)
        }
        None => Ok(List::new(alloc)),
    }
}

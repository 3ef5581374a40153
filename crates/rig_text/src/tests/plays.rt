//! The lines of a play: histories, tracks and frames.
use super::scene_in;
use crate::{Reply, Turn, edit_text, frame_step_text, frame_text, history_text, track_text};
use rig_edits::EditCause;
use rig_fixed::{Fx, V3, Xform};
use rig_scene::{Mode, Object};
use std::alloc::Global;
use std::test::Fail;

fn turn(step: u32, reply: Reply) -> Turn {
    Turn {
        track: 0,
        step,
        reply,
    }
}

#[test]
fn a_history_has_a_line_for_each_turn(rt: HostRuntime) -> Result<(), Fail> {
    let full = EditCause::Full {
        count: 1024,
        limit: 1024,
    };
    let turns = [
        turn(0, Reply::Looked),
        turn(1, Reply::Accepted),
        turn(2, Reply::Refused(EditCause::UnknownId)),
        turn(3, Reply::Refused(full)),
    ];
    let text = history_text(rt.alloc(), turns.as_slice())?;
    let wanted = "turn 0 track 0 step 0 look
turn 1 track 0 step 1 accepted
turn 2 track 0 step 2 refused E1
turn 3 track 0 step 3 refused E9 1024 of 1024
";
    assert_eq!(rt; text.as_slice(), wanted.as_bytes());
    Ok(())
}

#[test]
fn a_track_has_a_head_and_replies(rt: HostRuntime) -> Result<(), Fail> {
    let alloc = rt.alloc();
    for (text, wanted) in [
        (
            track_text(alloc, 0, Some(Mode::Viewport))?,
            "track 0 viewport\n",
        ),
        (
            track_text(alloc, 3, Some(Mode::Render))?,
            "track 3 render\n",
        ),
        (track_text(alloc, 12, None)?, "track 12 edits\n"),
        (edit_text(alloc, 3, 5, None)?, "step 3 accepted turn 5\n"),
        (
            edit_text(alloc, 3, 5, Some(EditCause::OutOfRange))?,
            "step 3 refused turn 5 E5\n",
        ),
        (
            frame_step_text(alloc, 3, -24, 5, 2, 6)?,
            "step 3 frame -24 turn 5 ran 2 of 6\n",
        ),
    ] {
        assert_eq!(rt; text.as_slice(), wanted.as_bytes());
    }
    Ok(())
}

fn frame_of(alloc: Global, objects: &[Object], worlds: &[Xform]) -> Result<Vec<u8>, Fail> {
    if objects.len() != worlds.len() {
        return Err(Fail::new("another number of objects"));
    }
    Ok(frame_text(alloc, Mode::Render, -6, 2, objects, worlds)?)
}

#[test]
fn a_frame_has_a_line_for_each_object(rt: HostRuntime) -> Result<(), Fail> {
    let alloc = rt.alloc();
    let scene = scene_in(
        alloc,
        r#"{"scene": {"version": 1, "objects": [{"name": "ball", "kind": "empty"}]}}"#,
    )?;
    let identity = Xform::identity();
    let world = Xform {
        loc: V3 {
            x: Fx::of(3_000_000),
            y: Fx::of(0),
            z: Fx::of(-1),
        },
        rot: identity.rot,
        scale: identity.scale,
    };
    let text = frame_of(alloc, scene.objects.as_slice(), &[world])?;
    let wanted = "frame -6 render
cuts 2
object 3000000 0 -1 1000000 0 0 0 1000000 ball
end
";
    assert_eq!(rt; text.as_slice(), wanted.as_bytes());
    Ok(())
}

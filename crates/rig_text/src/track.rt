//! The lines of a track: its head, and the reply to each of its steps.
ghost use Rattle.std.specs.Prelude.{◌≡◌, ◌++◌, OnOk, IfOk};
ghost use Rattle.rig_text.specs.Track.{mode_word, owned_word, track_line, answer_words, edit_line, ran_words, frame_step_line};

use crate::history::push_cause;
use crate::number::{push_number, push_signed};
use rig_edits::EditCause;
use rig_io::NoMemory;
use rig_scene::Mode;
use std::alloc::Global;

/// The head of a track: `track 0 viewport`, `track 0 render`, or `track 0 edits` where it owns no mode.
///
/// # Errors
///
/// [`NoMemory`] where memory is refused.
pub fn track_text(alloc: Global, track: u32, mode: Option<Mode>) -> Result<Vec<u8>, NoMemory>
    ensures { IfOk result (λ text. text.items ≡ track_line track mode) }
{
    let mut text = Vec::new(alloc);
    text.extend_from_slice(b"track ")?;
    push_number(&mut text, track)?;
    text.extend_from_slice(b" ")?;
    text.extend_from_slice(owned_word(mode))?;
    text.extend_from_slice(b"\n")?;
    Ok(text)
}

/// The word of a mode.
pub(crate) fn mode_word(mode: Mode) -> &'static [u8]
    ensures { result.now ≡ mode_word mode }
{
    match mode {
        Mode::Viewport => b"viewport",
        Mode::Render => b"render",
    }
}

fn owned_word(mode: Option<Mode>) -> &'static [u8]
    ensures { result.now ≡ owned_word mode }
{
    match mode {
        Some(mode) => mode_word(mode),
        None => b"edits",
    }
}

/// The reply to an edit: `step 3 accepted turn 5`, or `step 3 refused turn 5 E1` with the cause that refused it.
///
/// # Errors
///
/// [`NoMemory`] where memory is refused.
pub fn edit_text(
    alloc: Global,
    step: u32,
    turn: u32,
    refused: Option<EditCause>,
) -> Result<Vec<u8>, NoMemory>
    ensures { IfOk result (λ text. text.items ≡ edit_line step turn refused) }
{
    let mut text = Vec::new(alloc);
    text.extend_from_slice(b"step ")?;
    push_number(&mut text, step)?;
    push_answer(&mut text, turn, refused)?;
    Ok(text)
}

fn push_answer(text: &mut Vec<u8>, turn: u32, refused: Option<EditCause>) -> Result<(), NoMemory>
    ensures { OnOk result (text.new.items ≡ text.old.items ++ answer_words turn refused) }
{
    match refused {
        None => {
            text.extend_from_slice(b" accepted turn ")?;
            push_number(text, turn)?;
        }
        Some(cause) => {
            text.extend_from_slice(b" refused turn ")?;
            push_number(text, turn)?;
            text.extend_from_slice(b" ")?;
            push_cause(text, cause)?;
        }
    }
    text.extend_from_slice(b"\n")?;
    Ok(())
}

/// The line of a frame step, of which so many operations ran of so many: `step 3 frame 24 turn 5 ran 2 of 6`.
///
/// # Errors
///
/// [`NoMemory`] where memory is refused.
pub fn frame_step_text(
    alloc: Global,
    step: u32,
    frame: i32,
    turn: u32,
    ran: u32,
    all: u32,
) -> Result<Vec<u8>, NoMemory>
    ensures { IfOk result (λ text. text.items ≡ frame_step_line step frame turn ran all) }
{
    let mut text = Vec::new(alloc);
    text.extend_from_slice(b"step ")?;
    push_number(&mut text, step)?;
    text.extend_from_slice(b" frame ")?;
    push_signed(&mut text, i64::from(frame))?;
    push_ran(&mut text, turn, ran, all)?;
    Ok(text)
}

fn push_ran(text: &mut Vec<u8>, turn: u32, ran: u32, all: u32) -> Result<(), NoMemory>
    ensures { OnOk result (text.new.items ≡ text.old.items ++ ran_words turn ran all) }
{
    text.extend_from_slice(b" turn ")?;
    push_number(text, turn)?;
    text.extend_from_slice(b" ran ")?;
    push_number(text, ran)?;
    text.extend_from_slice(b" of ")?;
    push_number(text, all)?;
    text.extend_from_slice(b"\n")?;
    Ok(())
}

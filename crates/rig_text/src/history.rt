//! The history: a line for each turn, in order.
ghost use Rattle.std.specs.Prelude.{◌≡◌, ◌≤◌, ◌++◌, length, OnOk, IfOk};
ghost use Rattle.rig_scene.specs.declared.limits.TheConstants.{MAX_STEPS};
ghost use Rattle.rig_text.specs.History.{room_words, cause_words, reply_words, answered_words, turn_line, history_lines};

use crate::number::push_number;
use rig_edits::EditCause;
use rig_io::NoMemory;
use std::alloc::Global;

/// What a turn was answered.
#[derive(Clone, Copy, Debug, PartialEq, Eq)]
pub enum Reply {
    /// A frame step looked at the scene.
    Looked,
    /// The edit was applied.
    Accepted,
    /// The edit was refused by its first cause.
    Refused(EditCause),
}

/// One turn of a history: which step of which track took it, and its reply. Its number is its index.
#[derive(Clone, Copy, Debug, PartialEq, Eq)]
pub struct Turn {
    pub track: u32,
    pub step: u32,
    pub reply: Reply,
}

/// The history of at most 4,096 turns, a line each:
///
/// ```text
/// turn 0 track 0 step 0 look
/// turn 1 track 0 step 1 accepted
/// turn 2 track 0 step 2 refused E1
/// ```
///
/// # Errors
///
/// [`NoMemory`] where memory is refused.
pub fn history_text(alloc: Global, turns: &[Turn]) -> Result<Vec<u8>, NoMemory>
    requires { length turns.now ≤ MAX_STEPS }
    ensures { IfOk result (λ text. text.items ≡ history_lines turns.now) }
{
    let mut text = Vec::new(alloc);
    for i in 0..turns.len() {
        push_turn(&mut text, i as u32, turns[i])?;
    }
    Ok(text)
}

fn push_turn(text: &mut Vec<u8>, number: u32, turn: Turn) -> Result<(), NoMemory>
    ensures { OnOk result (text.new.items ≡ text.old.items ++ turn_line number turn) }
{
    text.extend_from_slice(b"turn ")?;
    push_number(text, number)?;
    text.extend_from_slice(b" track ")?;
    push_number(text, turn.track)?;
    text.extend_from_slice(b" step ")?;
    push_answered(text, turn.step, turn.reply)
}

fn push_answered(text: &mut Vec<u8>, step: u32, reply: Reply) -> Result<(), NoMemory>
    ensures { OnOk result (text.new.items ≡ text.old.items ++ answered_words step reply) }
{
    push_number(text, step)?;
    text.extend_from_slice(b" ")?;
    push_reply(text, reply)?;
    text.extend_from_slice(b"\n")?;
    Ok(())
}

fn push_reply(text: &mut Vec<u8>, reply: Reply) -> Result<(), NoMemory>
    ensures { OnOk result (text.new.items ≡ text.old.items ++ reply_words reply) }
{
    match reply {
        Reply::Looked => text.extend_from_slice(b"look")?,
        Reply::Accepted => text.extend_from_slice(b"accepted")?,
        Reply::Refused(cause) => {
            text.extend_from_slice(b"refused ")?;
            push_cause(text, cause)?;
        }
    }
    Ok(())
}

/// Adds the code of a cause, and how full the list is.
pub(crate) fn push_cause(text: &mut Vec<u8>, cause: EditCause) -> Result<(), NoMemory>
    ensures { OnOk result (text.new.items ≡ text.old.items ++ cause_words cause) }
{
    text.extend_from_slice(cause.code().as_bytes())?;
    push_room(text, cause)
}

fn push_room(text: &mut Vec<u8>, cause: EditCause) -> Result<(), NoMemory>
    ensures { OnOk result (text.new.items ≡ text.old.items ++ room_words cause) }
{
    if let EditCause::Full { count, limit } = cause {
        text.extend_from_slice(b" ")?;
        push_number(text, count)?;
        text.extend_from_slice(b" of ")?;
        push_number(text, limit)?;
    }
    Ok(())
}

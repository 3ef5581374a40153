//! Why an edit is refused.
ghost use Rattle.std.specs.Prelude.{◌≡◌};
ghost use Rattle.rig_edits.specs.Cause.{cause_code, rank_of};

use rig_io::NoMemory;
use std::alloc::AllocError;
use thiserror::Error;

/// Why an edit is refused. Each has a code, by which printed lines name it, and an edit is refused by the first of its
/// causes in the order of the codes.
#[derive(Clone, Copy, Debug, PartialEq, Eq, Error)]
pub enum EditCause {
    /// E1: no object, pencil, action or data has a name of the edit. The name of a new object or a new modifier isn't looked up.
    #[error("nothing has this name")]
    UnknownId,
    /// E2: the id has no path of this kind, a bone is named of an object without bones, or the object isn't a pencil object
    /// where a modifier is meant.
    #[error("the object or the path is of another kind")]
    WrongKind,
    /// E3: the bone or the layer of the path isn't one of the id's.
    #[error("the id has no such channel")]
    UnknownPath,
    /// E4: the action has no curve of the path, or there is no such layer, drawing, stroke, point, modifier or bone.
    #[error("there is no such curve, layer, drawing, stroke, point, modifier or bone")]
    UnknownPart,
    /// E5: a value or a coordinate, a frame or a count is out of its range.
    #[error("the number is out of range")]
    OutOfRange,
    /// E6: the name of the new object is an object's, or that of the new modifier stands in the stack.
    #[error("the name stands there already")]
    Duplicate,
    /// E7: there is no key at that frame, or no driver of that channel, to take out.
    #[error("there is nothing to take out")]
    Absent,
    /// E8: another object, a layer, another object's mirror or a driver of another id needs the object.
    #[error("the object is in use")]
    InUse,
    /// E9: there is no room for one more. `count` is how many there are before the edit.
    #[error("there are {count} of {limit} already")]
    Full { count: u32, limit: u32 },
}

impl EditCause {
    /// The code of the cause, as `E4`.
    pub fn code(self) -> &'static str
        ensures { result.now ≡ cause_code self }
    {
        match self {
            EditCause::UnknownId => "E1",
            EditCause::WrongKind => "E2",
            EditCause::UnknownPath => "E3",
            EditCause::UnknownPart => "E4",
            EditCause::OutOfRange => "E5",
            EditCause::Duplicate => "E6",
            EditCause::Absent => "E7",
            EditCause::InUse => "E8",
            EditCause::Full { .. } => "E9",
        }
    }
}

/// The place of a cause in the order of the codes.
pub(crate) fn rank(cause: EditCause) -> u8
    ensures { result ≡ rank_of cause }
{
    match cause {
        EditCause::UnknownId => 1,
        EditCause::WrongKind => 2,
        EditCause::UnknownPath => 3,
        EditCause::UnknownPart => 4,
        EditCause::OutOfRange => 5,
        EditCause::Duplicate => 6,
        EditCause::Absent => 7,
        EditCause::InUse => 8,
        EditCause::Full { .. } => 9,
    }
}

/// Why an edit wasn't applied. The scene is unchanged.
#[derive(Clone, Copy, Debug, PartialEq, Eq, Error)]
pub enum EditStop {
    /// Memory was refused. No cause holds.
    #[error("out of memory")]
    NoMemory,
    /// The first cause that holds.
    #[error("{0}")]
    Refused(EditCause),
}

impl From<EditCause> for EditStop {
    ghost use Rattle.std.specs.Prelude.{◌≡◌};
    ghost use Rattle.rig_edits.specs.declared.cause.EditStop.TheVariants.{Refused};

    ghost from_gives = { λ cause stop. stop ≡ Refused cause };

    fn from(cause: EditCause) -> Self {
        EditStop::Refused(cause)
    }
}

impl From<NoMemory> for EditStop {
    ghost use Rattle.std.specs.Prelude.{◌≡◌};
    ghost use Rattle.rig_edits.specs.declared.cause.EditStop.TheVariants.{NoMemory as stopped_for_memory};

    ghost from_gives = { λ _ stop. stop ≡ stopped_for_memory };

    fn from(_: NoMemory) -> Self {
        EditStop::NoMemory
    }
}

impl From<AllocError> for EditStop {
    ghost use Rattle.std.specs.Prelude.{◌≡◌};
    ghost use Rattle.rig_edits.specs.declared.cause.EditStop.TheVariants.{NoMemory as stopped_for_memory};

    ghost from_gives = { λ _ stop. stop ≡ stopped_for_memory };

    fn from(_: AllocError) -> Self {
        EditStop::NoMemory
    }
}

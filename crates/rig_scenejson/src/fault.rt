//! Faults of reading: what is wrong with an input, and where.
ghost use Rattle.std.specs.Prelude.{◌≡◌, []};
ghost use Rattle.rig_scenejson.specs.Fault.{cause_code};
ghost use Rattle.rig_scenejson.specs.Tests.{Moved};

use crate::member::Member;
use rig_io::{List, NoMemory};
use std::alloc::{AllocError, AllocFailed, Global};
use thiserror::Error;

/// What is wrong with a value. Each has a code, by which printed lines name it.
#[derive(Clone, Copy, Debug, PartialEq, Eq, Error)]
pub enum Cause {
    /// S1: a member that has to be there is absent.
    #[error("a member is missing")]
    Missing,
    /// S2: the value isn't of the JSON kind that is wanted, or an array has the wrong length for a vector.
    #[error("the value is of another kind")]
    WrongKind,
    /// S3: the number isn't whole, or is beyond 64 bits.
    #[error("the number isn't whole")]
    NotWhole,
    /// S4: the number is outside its range, or the word isn't one of those that may stand here.
    #[error("the value is out of range")]
    OutOfRange,
    /// S5: the text isn't a name.
    #[error("the text isn't a name")]
    BadName,
    /// S6: a name, a path or a driven channel stands a second time in its list.
    #[error("this stands a second time")]
    Duplicate,
    /// S7: a name or a number of a drawing refers to nothing.
    #[error("nothing has this name or number")]
    UnknownRef,
    /// S8: the object isn't an armature object where one is wanted, or the id has no path of this kind.
    #[error("the object or the path is of another kind")]
    WrongIdKind,
    /// S9: a key's frame isn't above the one before it.
    #[error("the frame isn't above the one before")]
    Unordered,
    /// S10: a list is too long or too short, or brings a total over its limit.
    #[error("there are too many or too few")]
    Count,
    /// S11: the version is a whole number other than 1.
    #[error("the version isn't 1")]
    Version,
}

impl Cause {
    /// The code of the cause, as `S7`.
    pub fn code(self) -> &'static str
        ensures { result.now ≡ cause_code self }
    {
        match self {
            Cause::Missing => "S1",
            Cause::WrongKind => "S2",
            Cause::NotWhole => "S3",
            Cause::OutOfRange => "S4",
            Cause::BadName => "S5",
            Cause::Duplicate => "S6",
            Cause::UnknownRef => "S7",
            Cause::WrongIdKind => "S8",
            Cause::Unordered => "S9",
            Cause::Count => "S10",
            Cause::Version => "S11",
        }
    }
}

/// One step into a value: a member of an object, or an item of an array by its index from 0.
#[derive(Clone, Copy, Debug, PartialEq, Eq)]
pub enum Hop {
    Member(Member),
    Index(u32),
}

/// The way from the whole input to a value in it. The input itself has the empty place.
pub type Place = List<Hop>;

/// What is wrong, and where.
#[derive(Debug, Drop, PartialEq, Eq)]
pub struct Fault {
    pub cause: Cause,
    pub place: Place,
}

/// Why an input gave no scene.
#[derive(Debug, Drop, PartialEq, Eq)]
pub enum SceneStop {
    /// Memory was refused.
    NoMemory,
    /// The first fault of the input.
    Fault(Fault),
}

impl From<NoMemory> for SceneStop {
    ghost use Rattle.std.specs.Prelude.{◌≡◌};
    ghost use Rattle.rig_scenejson.specs.declared.fault.SceneStop.TheVariants.{NoMemory as stopped_for_memory};

    ghost from_gives = { λ _ stop. stop ≡ stopped_for_memory };

    fn from(_: NoMemory) -> Self {
        SceneStop::NoMemory
    }
}

impl From<AllocError> for SceneStop {
    ghost use Rattle.std.specs.Prelude.{◌≡◌};
    ghost use Rattle.rig_scenejson.specs.declared.fault.SceneStop.TheVariants.{NoMemory as stopped_for_memory};

    ghost from_gives = { λ _ stop. stop ≡ stopped_for_memory };

    fn from(_: AllocError) -> Self {
        SceneStop::NoMemory
    }
}

impl<T: Drop> From<AllocFailed<T>> for SceneStop {
    ghost use Rattle.std.specs.Prelude.{◌≡◌};
    ghost use Rattle.rig_scenejson.specs.declared.fault.SceneStop.TheVariants.{NoMemory as stopped_for_memory};

    ghost from_gives = { λ _ stop. stop ≡ stopped_for_memory };

    fn from(_: AllocFailed<T>) -> Self {
        SceneStop::NoMemory
    }
}

/// The fault of the value itself.
pub fn stop_for(alloc: Global, cause: Cause) -> SceneStop
    ensures { result ≡ SceneStop.Fault (record { cause = cause; place = [] }) }
{
    SceneStop::Fault(Fault {
        cause,
        place: List::new(alloc),
    })
}

/// The stop, as that of a value in which this one stands at a hop.
pub(crate) fn moved(alloc: Global, hop: Hop, stop: SceneStop) -> SceneStop
    ensures { Moved hop stop result }
{
    match stop {
        SceneStop::NoMemory => SceneStop::NoMemory,
        SceneStop::Fault(fault) => stop_at(hop, fault),
    }
}

fn stop_at(hop: Hop, fault: Fault) -> SceneStop
    ensures { Moved hop (SceneStop.Fault fault) result }
{
    let mut hops = fault.place.into_vec();
    match hops.insert(0, hop) {
        Ok(()) => SceneStop::Fault(Fault {
            cause: fault.cause,
            place: List::from(hops),
        }),
        Err(_) => SceneStop::NoMemory,
    }
}

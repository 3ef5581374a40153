//! The line of a fault of reading.
ghost use Rattle.std.specs.Prelude.{◌≡◌, ◌++◌, OnOk, IfOk};
ghost use Rattle.std.specs.List.{flat_map};
ghost use Rattle.rig_text.specs.Fault.{status_words, fault_head, hop_text, place_words, fault_line};

use crate::number::push_number;
use rig_io::NoMemory;
use rig_scenejson::{Cause, Fault, Hop};
use std::alloc::Global;

/// The line of a fault of a scene, or of a script where `scene` is false: `fault BadScene S7 /scene/objects/1/parent`, or
/// `fault BadScript ..`, with the code of the cause and the place.
///
/// # Errors
///
/// [`NoMemory`] where memory is refused.
pub fn fault_text(alloc: Global, fault: &Fault, scene: bool) -> Result<Vec<u8>, NoMemory>
    ensures { IfOk result (λ text. text.items ≡ fault_line fault.now scene) }
{
    let mut text = Vec::new(alloc);
    push_head(&mut text, fault.cause, scene)?;
    push_place(&mut text, fault.place.as_slice())?;
    text.extend_from_slice(b"\n")?;
    Ok(text)
}

fn push_head(text: &mut Vec<u8>, cause: Cause, scene: bool) -> Result<(), NoMemory>
    ensures { OnOk result (text.new.items ≡ text.old.items ++ fault_head cause scene) }
{
    text.extend_from_slice(status_words(scene))?;
    text.extend_from_slice(cause.code().as_bytes())?;
    Ok(())
}

fn status_words(scene: bool) -> &'static [u8]
    ensures { result.now ≡ status_words scene }
{
    if scene {
        b"fault BadScene "
    } else {
        b"fault BadScript "
    }
}

// A space and the place, where it has a step.
fn push_place(text: &mut Vec<u8>, place: &[Hop]) -> Result<(), NoMemory>
    ensures { OnOk result (text.new.items ≡ text.old.items ++ place_words place.now) }
{
    if place.is_empty() {
        return Ok(());
    }
    text.extend_from_slice(b" ")?;
    push_hops(text, place)
}

fn push_hops(text: &mut Vec<u8>, place: &[Hop]) -> Result<(), NoMemory>
    ensures { OnOk result (text.new.items ≡ text.old.items ++ flat_map hop_text place.now) }
{
    for hop in place {
        push_hop(text, *hop)?;
    }
    Ok(())
}

fn push_hop(text: &mut Vec<u8>, hop: Hop) -> Result<(), NoMemory>
    ensures { OnOk result (text.new.items ≡ text.old.items ++ hop_text hop) }
{
    text.extend_from_slice(b"/")?;
    match hop {
        Hop::Member(member) => text.extend_from_slice(member.word().as_bytes())?,
        Hop::Index(index) => push_number(text, index)?,
    }
    Ok(())
}

//! The text of a frame.
ghost use Rattle.std.specs.Prelude.{◌≡◌, ◌++◌, length, OnOk, IfOk};
ghost use Rattle.std.specs.List.{flat_map};
ghost use Rattle.rig_text.specs.Line.{spaced};
ghost use Rattle.rig_text.specs.Frame.{transform_numbers, object_line, object_lines, frame_line, cuts_line, frame_lines};

use crate::number::{push_number, push_signed};
use crate::track::mode_word;
use rig_fixed::Xform;
use rig_io::NoMemory;
use rig_scene::{Mode, Name, Object};
use std::alloc::Global;

/// The text of a frame of empty objects: its head, the number of cut reads, a line for each object by its transform in the
/// world at its index, and its end.
///
/// ```text
/// frame 6 viewport
/// cuts 0
/// object 3000000 0 0 1000000 0 0 0 1000000 ball
/// end
/// ```
///
/// # Errors
///
/// [`NoMemory`] where memory is refused.
pub fn frame_text(
    alloc: Global,
    mode: Mode,
    frame: i32,
    cuts: u32,
    objects: &[Object],
    worlds: &[Xform],
) -> Result<Vec<u8>, NoMemory>
    requires { length objects.now ≡ length worlds.now }
    ensures { IfOk result (λ text. text.items ≡ frame_lines mode frame cuts objects.now worlds.now) }
{
    let mut text = Vec::new(alloc);
    push_head(&mut text, mode, frame)?;
    push_cuts(&mut text, cuts)?;
    push_objects(&mut text, objects, worlds)?;
    text.extend_from_slice(b"end\n")?;
    Ok(text)
}

fn push_head(text: &mut Vec<u8>, mode: Mode, frame: i32) -> Result<(), NoMemory>
    ensures { OnOk result (text.new.items ≡ text.old.items ++ frame_line mode frame) }
{
    text.extend_from_slice(b"frame ")?;
    push_signed(text, i64::from(frame))?;
    text.extend_from_slice(b" ")?;
    text.extend_from_slice(mode_word(mode))?;
    text.extend_from_slice(b"\n")?;
    Ok(())
}

fn push_cuts(text: &mut Vec<u8>, cuts: u32) -> Result<(), NoMemory>
    ensures { OnOk result (text.new.items ≡ text.old.items ++ cuts_line cuts) }
{
    text.extend_from_slice(b"cuts ")?;
    push_number(text, cuts)?;
    text.extend_from_slice(b"\n")?;
    Ok(())
}

// Adds a line for each object by the transform at its index.
fn push_objects(text: &mut Vec<u8>, objects: &[Object], worlds: &[Xform]) -> Result<(), NoMemory>
    requires { length objects.now ≡ length worlds.now }
    ensures { OnOk result (text.new.items ≡ text.old.items ++ object_lines objects.now worlds.now) }
{
    for i in 0..objects.len() {
        push_object(text, &objects[i].name, &worlds[i])?;
    }
    Ok(())
}

fn push_object(text: &mut Vec<u8>, name: &Name, t: &Xform) -> Result<(), NoMemory>
    ensures { OnOk result (text.new.items ≡ text.old.items ++ object_line name.now t.now) }
{
    text.extend_from_slice(b"object")?;
    push_each(text, &numbers_of(t))?;
    text.extend_from_slice(b" ")?;
    text.extend_from_slice(name.as_str().as_bytes())?;
    text.extend_from_slice(b"\n")?;
    Ok(())
}

fn numbers_of(t: &Xform) -> [i64; 8]
    ensures { result ≡ transform_numbers t.now }
{
    let loc = t.loc;
    let rot = t.rot;
    [
        loc.x.get(),
        loc.y.get(),
        loc.z.get(),
        rot.w,
        rot.x,
        rot.y,
        rot.z,
        t.scale.get(),
    ]
}

fn push_each(text: &mut Vec<u8>, numbers: &[i64]) -> Result<(), NoMemory>
    ensures { OnOk result (text.new.items ≡ text.old.items ++ flat_map spaced numbers.now) }
{
    for x in numbers {
        push_spaced(text, *x)?;
    }
    Ok(())
}

fn push_spaced(text: &mut Vec<u8>, x: i64) -> Result<(), NoMemory>
    ensures { OnOk result (text.new.items ≡ text.old.items ++ spaced x) }
{
    text.extend_from_slice(b" ")?;
    push_signed(text, x)
}

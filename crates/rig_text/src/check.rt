//! The text of `check`: how large the graph of a scene is, and which reads it cuts.
ghost use Rattle.std.specs.Prelude.{◌≡◌, ◌++◌, OnOk, IfOk};
ghost use Rattle.std.specs.List.{flat_map};
ghost use Rattle.rig_text.specs.Check.{count_line, cut_line, check_lines};

use crate::number::push_count;
use crate::quantity::push_quantity;
use rig_io::{List, NoMemory};
use rig_scene::{CutRead, Scene};
use std::alloc::Global;

/// What `check` prints of a scene: how many objects, operations, in-links and cut reads there are, and a line for each cut
/// read in their order, first what was to be read and then what would have read it.
///
/// ```text
/// objects 2
/// operations 5
/// links 4
/// cuts 1
/// cut world A -> world B
/// ```
///
/// A quantity is one of these, each name as the scene has it. The name of what the scene doesn't have is empty.
///
/// - `channel object NAME CHANNEL`, `channel object NAME bone BONE CHANNEL` and `channel pencil NAME layer LAYER CHANNEL`
/// - `local NAME` and `world NAME` of an object
/// - `bone NAME BONE` of an object
/// - `layer PENCIL LAYER`
/// - `geometry NAME I`, of an object after I of its modifiers
///
/// # Errors
///
/// [`NoMemory`] where memory is refused.
pub fn check_text(
    alloc: Global,
    scene: &Scene,
    operations: u32,
    links: u32,
    cuts: &List<CutRead>,
) -> Result<Vec<u8>, NoMemory>
    ensures { IfOk result (λ text. text.items ≡ check_lines scene.now operations links cuts.now) }
{
    let mut text = Vec::new(alloc);
    push_line(&mut text, b"objects ", scene.objects.len())?;
    push_line(&mut text, b"operations ", operations as usize)?;
    push_line(&mut text, b"links ", links as usize)?;
    push_line(&mut text, b"cuts ", cuts.len())?;
    push_cuts(&mut text, scene, cuts.as_slice())?;
    Ok(text)
}

fn push_line(text: &mut Vec<u8>, word: &[u8], count: usize) -> Result<(), NoMemory>
    ensures { OnOk result (text.new.items ≡ text.old.items ++ count_line word.now count) }
{
    text.extend_from_slice(word)?;
    push_count(text, count)?;
    text.extend_from_slice(b"\n")?;
    Ok(())
}

fn push_cuts(text: &mut Vec<u8>, scene: &Scene, cuts: &[CutRead]) -> Result<(), NoMemory>
    ensures { OnOk result (text.new.items ≡ text.old.items ++ flat_map (cut_line scene.now) cuts.now) }
{
    for cut in cuts {
        push_cut(text, scene, cut)?;
    }
    Ok(())
}

fn push_cut(text: &mut Vec<u8>, scene: &Scene, cut: &CutRead) -> Result<(), NoMemory>
    ensures { OnOk result (text.new.items ≡ text.old.items ++ cut_line scene.now cut.now) }
{
    text.extend_from_slice(b"cut ")?;
    push_quantity(text, scene, &cut.source)?;
    text.extend_from_slice(b" -> ")?;
    push_quantity(text, scene, &cut.reader)?;
    text.extend_from_slice(b"\n")?;
    Ok(())
}

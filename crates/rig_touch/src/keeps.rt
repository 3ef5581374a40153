//! Which edits keep all links.
ghost use Rattle.std.specs.Prelude.{◌≡◌, option_and_then};
ghost use Rattle.std.specs.List.{find};
ghost use Rattle.std.specs.Option.{option_copied};
ghost use Rattle.rig_edits.specs.Named.{pencil_named, layer_named};
ghost use Rattle.rig_scene.specs.Text.{same_text};
ghost use Rattle.rig_touch.specs.KeepsLinks.{keys_of_layer, keeps_links};

use rig_edits::Edit;
use rig_scene::{Layer, Name, PencilData, Scene};

/// Whether an edit keeps the operations of a scene and the in-links of each, by the scene before it. It is true of each edit of a
/// number, a key, a switch or a point, whatever its names mean, and of one of a layer's keys where the layer has keys before and after it.
/// It is false of each edit of a parent, a driver or a modifier, and where an object comes or goes, though such an edit may keep them, too.
#[tactic(auto, unfolding(crate::specs::KeepsLinks::keeps_links))]
pub fn keeps_links(scene: &Scene, edit: &Edit) -> bool
    ensures { result ≡ keeps_links scene.now edit.now }
{
    match edit {
        Edit::SetValue { .. }
        | Edit::SetKey { .. }
        | Edit::DeleteKey { .. }
        | Edit::SetFlag { .. }
        | Edit::MovePoint { .. } => true,
        Edit::SetLayerKey { pencil, layer, .. } => keys_of_layer(scene, pencil, layer) >= 1,
        Edit::DeleteLayerKey { pencil, layer, .. } => keys_of_layer(scene, pencil, layer) >= 2,
        Edit::SetParent { .. }
        | Edit::SetDriver { .. }
        | Edit::ClearDriver { .. }
        | Edit::AddObject { .. }
        | Edit::RemoveObject { .. }
        | Edit::AddModifier { .. }
        | Edit::RemoveModifier { .. } => false,
    }
}

fn keys_of_layer(scene: &Scene, pencil: &Name, layer: &Name) -> usize
    ensures { result ≡ keys_of_layer scene.now pencil.now layer.now }
{
    match layer_named(scene, pencil, layer) {
        Some(layer) => layer.keys.len(),
        None => 0,
    }
}

fn layer_named<'a>(scene: &'a Scene, pencil: &Name, layer: &Name) -> Option<&'a Layer>
    ensures { option_copied result ≡ option_and_then (λ p. layer_named p layer.now) (pencil_named scene.now pencil.now) }
{
    let pencil = named_pencil(scene.pencils.as_slice(), pencil)?;
    named_layer(pencil.layers.as_slice(), layer)
}

fn named_pencil<'a>(pencils: &'a [PencilData], name: &Name) -> Option<&'a PencilData>
    ensures { option_copied result ≡ find (λ p. same_text p.name name.now) pencils.now }
{
    pencils.iter().find(|p| p.name == *name)
}

fn named_layer<'a>(layers: &'a [Layer], name: &Name) -> Option<&'a Layer>
    ensures { option_copied result ≡ find (λ l. same_text l.name name.now) layers.now }
{
    layers.iter().find(|l| l.name == *name)
}

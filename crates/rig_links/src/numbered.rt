//! A scene with its operations numbered, and links from one of them to others.
ghost use Rattle.std.specs.Prelude.{◌≡◌, ◌++◌, [], ◌∷◌, Some, None, OnOk, IsTrue, false, if◌then◌else◌};
ghost use Rattle.rig_laws.specs.Members.{has_operation};
ghost use Rattle.rig_scene.specs.Operations.{operations};
ghost use Rattle.rig_scene.specs.WellFormed.{is_scene};
ghost use Rattle.rig_links.specs.Numbers.{number_of, link_to};
ghost use Rattle.rig_links.specs.Parts.{if_there};

use rig_cut::Link;
use rig_io::NoMemory;
use rig_nodes::NodeTable;
use rig_scene::{Driver, OpId, Scene};
use std::marker::Model;

/// A scene with its operations numbered. Contracts see it as the scene.
#[derive(Drop)]
pub(crate) struct NumberedScene<'a> {
    pub(crate) scene: &'a Scene,
    pub(crate) drivers: &'a [Driver],
    nodes: &'a NodeTable,
}

impl<'a> Model for NumberedScene<'a> {
    ghost use Rattle.std.specs.Prelude.{◌≡◌, IsTrue};
    ghost use Rattle.rig_scene.specs.Operations.{operations};
    ghost use Rattle.rig_scene.specs.Scene.{SceneRecord};
    ghost use Rattle.rig_scene.specs.WellFormed.{is_scene};

    ghost Value = { SceneRecord };

    ghost view = { λ n. n.scene.now };

    ghost invariant = { λ n.
        IsTrue (is_scene n.scene.now) × (n.nodes.now ≡ operations n.scene.now) × (n.drivers.now ≡ n.scene.now.drivers) };
}

impl<'a> NumberedScene<'a> {
    pub(crate) fn new(scene: &'a Scene, nodes: &'a NodeTable) -> NumberedScene<'a>
        requires { nodes.now ≡ operations scene.now }
        ensures scene { result ≡ scene.entry.now }
        ensures met { IsTrue (is_scene scene.entry.now) }
    {
        NumberedScene {
            scene,
            drivers: scene.drivers.as_slice(),
            nodes,
        }
    }

    /// The number of an operation, where the scene has it.
    pub(crate) fn number_if_there(&self, op: &OpId) -> Option<u32>
        ensures { result ≡ (if has_operation self.now op.now then Some (number_of self.now op.now) else None) }
    {
        self.nodes.number(op)
    }

    /// The number of an operation, and that behind the last one where the scene hasn't it.
    pub(crate) fn number(&self, op: &OpId) -> u32
        ensures { result ≡ number_of self.now op.now }
    {
        self.nodes.number(op).unwrap_or(self.nodes.len())
    }

    /// Adds a link from the operation of a number.
    pub(crate) fn push(
        &self,
        links: &mut Vec<Link>,
        reader: u32,
        reference: bool,
        source: &OpId,
    ) -> Result<(), NoMemory>
        ensures { OnOk result (links.new.items ≡ links.old.items ++ link_to self.now reader reference source.now ∷ []) }
    {
        links.push(Link {
            source: self.number(source),
            reader,
            reference,
        })?;
        Ok(())
    }

    /// Adds a link that is never cut, where the scene has the operation.
    pub(crate) fn push_if_there(
        &self,
        links: &mut Vec<Link>,
        reader: u32,
        source: &OpId,
    ) -> Result<(), NoMemory>
        ensures { OnOk result (links.new.items ≡ links.old.items ++ if_there self.now reader source.now) }
    {
        if let Some(source) = self.number_if_there(source) {
            links.push(Link {
                source,
                reader,
                reference: false,
            })?;
        }
        Ok(())
    }
}

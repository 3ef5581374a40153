//! The in-links of a scene's operations, by number.
ghost use Rattle.std.specs.Prelude.{◌≡◌, ◌<◌, ◌^◌, length, slice_get, Some};
ghost use Rattle.std.specs.List.{All};
ghost use Rattle.rig_rows.specs.Rows.{joined};
ghost use Rattle.rig_links.specs.Links.{readers_of};

use rig_io::List;
use rig_rows::Rows;
use std::marker::Model;

/// An in-link of an operation.
#[derive(Clone, Copy, Debug, PartialEq, Eq)]
pub struct In {
    /// The number of the operation that is needed.
    pub source: u32,
    /// Whether the link is cut: what is needed then gives its rest value.
    pub cut: bool,
}

/// The in-links of numbered operations, with what follows from them: who reads an operation, and an order of evaluation.
#[derive(Drop)]
pub struct LinkTable {
    pub(crate) ins: Rows<In>,
    pub(crate) readers: Rows<u32>,
    pub(crate) order: List<u32>,
    pub(crate) places: Vec<u32>,
}

impl Model for LinkTable {
    ghost use Rattle.rig_links.specs.Links.{Links};
    ghost use Rattle.rig_links.specs.Tables.{IsTable};

    ghost Value = { Links };

    ghost view = { λ t. record { ins = t.ins; order = t.order } };

    ghost invariant = { λ t. IsTable t.ins t.readers t.order t.places.items };
}

impl LinkTable {
    /// The in-links of the operation of a number, in order.
    pub fn ins(&self, n: u32) -> &[In]
        requires { n < length self.now.ins }
        ensures row { slice_get self.now.ins n ≡ Some result.now }
        ensures within { All (λ l. l.source < length self.now.ins) result.now }
        ensures few { length (joined self.now.ins) < 2 ^ 32 }
    {
        self.ins.get(n as usize)
    }

    /// The number of all in-links, cut ones among them.
    pub fn links(&self) -> u32
        ensures { result ≡ length (joined self.now.ins) }
    {
        self.ins.items().len() as u32
    }

    /// The numbers of all operations in an order of evaluation: each stands after those that it needs by links that aren't
    /// cut.
    pub fn order(&self) -> &[u32]
        ensures { result.now ≡ self.now.order }
    {
        self.order.as_slice()
    }

    /// The index in [`LinkTable::order`] of the operation of a number.
    pub fn place(&self, n: u32) -> u32
        requires { n < length self.now.ins }
        ensures stands { slice_get self.now.order result ≡ Some n }
        ensures within { result < length self.now.ins }
    {
        self.places[n as usize]
    }

    /// The operations that need the one of a number by links that aren't cut, in order, one for each such link.
    pub fn readers(&self, n: u32) -> &[u32]
        requires { n < length self.now.ins }
        ensures { result.now ≡ readers_of n self.now.ins }
    {
        self.readers.get(n as usize)
    }
}

//! What a graph opens with.
ghost use Rattle.std.specs.Prelude.{◌≡◌, None, replicate, IfOk};

use rig_copies::Copies;
use rig_flush::Tags;
use rig_io::NoMemory;
use rig_nodes::NodeTable;
use std::alloc::Global;

/// All operations, tagged.
pub(crate) fn all_tags(alloc: Global, nodes: &NodeTable) -> Result<Tags, NoMemory>
    ensures { IfOk result (λ tags. tags ≡ nodes.now) }
{
    let mut tags = Tags::new(alloc);
    for op in nodes.ops() {
        tags.add(op.copy()?)?;
    }
    Ok(tags)
}

/// Nothing kept of so many operations.
pub(crate) fn no_copies(alloc: Global, count: u32) -> Result<Copies, NoMemory>
    ensures { IfOk result (λ copies. copies.kept ≡ replicate count None) }
{
    let mut copies = Copies::new(alloc);
    copies.extend_to(count)?;
    Ok(copies)
}

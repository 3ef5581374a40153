//! What is kept of the tracks before one of them.
use rig_io::List;
use rig_scene::Mode;

/// The tracks before one of them.
#[derive(Drop)]
pub(crate) struct TracksBefore {
    /// The modes that they own.
    pub(crate) modes: List<Mode>,
    /// How many more steps the script may have.
    pub(crate) steps_left: usize,
    /// How many more of its frames may be full.
    pub(crate) full_left: usize,
}

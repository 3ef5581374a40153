//! What the history has of an accepted edit.
use rig_edits::Edit;

/// An accepted edit and the turn at which it was made. Turns are counted from 0.
#[derive(Debug, Drop)]
pub struct Entry {
    pub turn: u32,
    pub edit: Edit,
}

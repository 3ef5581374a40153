//! Scenes that are read from JSON, and edits of them.
mod edits;
mod reading;

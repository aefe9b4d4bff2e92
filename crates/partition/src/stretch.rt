//! The nodes of a row.

/// A node: the places of a row from `start` on and before `end`, and whether it was split into others. One that was split has its
/// stretch still.
#[derive(Clone, Copy)]
pub struct Stretch {
    pub start: u16,
    pub end: u16,
    pub split: bool,
}

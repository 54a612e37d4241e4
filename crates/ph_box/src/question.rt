//! Questions about boxes.

/// How the boxes that a question lists lie to the asked one. Boxes are closed, so two that touch overlap.
#[derive(Clone, Copy)]
pub enum Question {
    /// They have a point in common with it.
    Overlap,
    /// They lie inside it.
    Inside,
    /// They cover it.
    Cover,
}

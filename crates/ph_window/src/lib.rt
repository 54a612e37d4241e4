//! Windows over a tree: the rows between two corners, in Z-order, and pages of them.
#![tactic(auto)]

mod corners;
mod cursor;
mod mark;
mod page;
mod parting;
mod resume;
mod seek;
mod whole;
mod window;

pub use cursor::Cursor;
pub use page::{Page, PageOf, Tail};
pub use window::{Window, WindowOf};

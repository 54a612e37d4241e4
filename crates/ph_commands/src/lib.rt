//! What a command does to a tree of any number of dimensions, and the replies to it.
#![tactic(auto)]

mod answer;
mod boxes;
mod combining;
mod commands;
mod distances;
mod listing;
mod output;
mod pairs;
mod records;
mod saving;
mod sizes;
mod undoing;

pub use answer::{Answer, Stop};
pub use boxes::list_boxes;
pub use combining::combine_trees;
pub use commands::{
    are_same, clear_rows, count_rows, cursor_at, del_row, get_row, move_row, put_row,
};
pub use distances::{list_ball, list_near};
pub use listing::{list_page, list_window};
pub use output::{say, tell};
pub use pairs::list_pairs;
pub use records::{export_tree, import_text};
pub use saving::{load_kept, save_tree};
pub use sizes::{LINE_BYTES, list_sizes, push_count, push_sizes, tree_sizes};
pub use undoing::{back_edits, keep_edits, take_rows};

//! The entries of a record.

ghost use Rattle.std.specs.Prelude.{◌≡◌, ◌<◌};
ghost use Rattle.ph_specs.specs.RecordNames.{first_in, has_cube};
ghost use Rattle.ph_node.specs.Recorded.{IsLaidOut};
ghost use Rattle.ph_snap.specs.Frames.{IsEntry};

use ph_cube::by_dims as cube;
use ph_linear::by_dims as linear;

/// An entry of a record: its address, whether it is a child, and the digit of the record at which its body begins.
#[derive(Clone, Copy)]
pub(crate) struct Entry {
    pub(crate) addr: u32,
    pub(crate) child: bool,
    pub(crate) body: u64,
}

/// Entry `i`.
pub(crate) fn entry_at(words: &[u64], dims: usize, i: usize) -> Entry
    requires record { IsLaidOut dims words.now }
    requires within { i < (first_in words.now).entries }
    ensures { IsEntry dims words.now i result }
{
    if has_cube(words, dims) {
        let addr = cube::address(words, dims, i);
        Entry {
            addr,
            child: cube::is_child_at(words, dims, i, addr),
            body: cube::body_at(words, dims, i, addr),
        }
    } else {
        Entry {
            addr: linear::address(words, dims, i),
            child: linear::is_child(words, dims, i),
            body: linear::body_at(words, dims, i),
        }
    }
}

// Whether a record has the cube layout.
fn has_cube(words: &[u64], dims: usize) -> bool
    requires { IsLaidOut dims words.now }
    ensures { result ≡ has_cube dims (first_in words.now) }
{
    let _ = dims;
    words[0] >> 48 & 0xFF == 1
}

//! Entries of at most two dimensions as a list.

ghost use Rattle.std.specs.Prelude.{◌≡◌, ◌∷◌, ◌≤◌, true, length, replicate, take};
ghost use Rattle.ph_bits.specs.Packed.{IsPadded};
ghost use Rattle.ph_record_trials.specs.Listed.{IsItem, IsWritable, body_of};

use ph_bits::{Entries, Mark, Packed};
use ph_coord::Dims;

/// One entry: an address, the fields of its body, and a value where it is a point.
#[derive(Clone, Copy)]
pub struct Item {
    pub addr: u32,
    pub fields: (u64, u64),
    pub value: Option<u64>,
}

/// Entries that are a list.
#[derive(Drop)]
pub struct Items<'t> {
    pub items: &'t [Item],
}

impl<'t, P: Dims> Entries<P> for Items<'t> {
    ghost use Rattle.ph_record_trials.specs.Listed.{flats};

    ghost list = { λ t. flats P.D t.items.now };

    fn count(&self) -> usize {
        self.items.len()
    }

    fn at(&self, i: usize, mark: &mut Option<Mark>) -> Packed {
        let _ = mark;
        let item = &self.items[i];
        let body = body_of(P::D, item.fields);
        Packed {
            addr: item.addr,
            child: item.value.is_none(),
            body,
            rank: 0,
        }
    }

    fn value(&self, i: usize, mark: &mut Option<Mark>) -> u64 {
        let _ = mark;
        match self.items[i].value {
            Some(v) => v,
            None => 0,
        }
    }
}

// A body of as many of two fields as there are dimensions.
fn body_of(dims: usize, fields: (u64, u64)) -> [u64; 16]
    ensures fields { take dims result ≡ take dims (body_of fields) }
    ensures zeros { IsPadded dims result }
{
    let (x, y) = fields;
    match dims {
        0 => [0; 16],
        1 => [x, 0, 0, 0, 0, 0, 0, 0, 0, 0, 0, 0, 0, 0, 0, 0],
        _ => [x, y, 0, 0, 0, 0, 0, 0, 0, 0, 0, 0, 0, 0, 0, 0],
    }
}

// Whether entries can be written: from the last to the first, each address is below the next.
pub(crate) fn is_writable(dims: usize, level: u32, items: &[Item]) -> bool
    requires some { 1 ≤ dims }
    requires few { dims ≤ 2 }
    ensures { result ≡ true → IsWritable dims level items.now }
{
    if level > 61 || items.is_empty() {
        return false;
    }
    let mut next = 1 << dims;
    let mut i = items.len();
    while i > 0 {
        i -= 1;
        let item = &items[i];
        if item.addr >= next || !is_item(dims, level, item) {
            return false;
        }
        next = item.addr;
    }
    true
}

// Whether the fields of an entry fit a level, and it is no child at level 0.
fn is_item(dims: usize, level: u32, item: &Item) -> bool
    requires some { 1 ≤ dims }
    requires few { dims ≤ 2 }
    requires low { level ≤ 61 }
    ensures { result ≡ true → IsItem dims level item.now }
{
    let (x, y) = item.fields;
    if x >= 1 << level {
        return false;
    }
    if dims == 2 && y >= 1 << level {
        return false;
    }
    level > 0 || item.value.is_some()
}

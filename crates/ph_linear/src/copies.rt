//! Columns of a record, and one entry of a column changed where it lies.

ghost use Rattle.std.specs.Prelude.{◌≡◌, ◌+◌, ◌*◌, ◌^◌, ◌<◌, ◌≤◌, length, take, replicate};
ghost use Rattle.std.specs.List.{AllByRecursion as Each};
ghost use Rattle.ph_specs.specs.RecordNames.{field, number_of, bodies, body_fields};
ghost use Rattle.ph_linear.specs.Edited.{IsColumn, IsOver, IsColumnOver};

use ph_bits::{Edit, set_field};

/// A column of an old record: so many entries with `width` digits each, from digit `at` on.
#[derive(Clone, Copy)]
pub struct Column {
    pub at: u64,
    pub width: u64,
    pub count: u64,
}

impl Column {
    /// The digit at which the digits of an entry begin, or those of the last one end.
    #[inline(always)]
    pub fn start(self, i: u64) -> u64
        requires within { i ≤ self.count }
        requires near { self.at + self.count * self.width ≤ 2 ^ 62 }
        ensures { result ≡ self.at + i * self.width }
    {
        self.at + i * self.width
    }

    /// Puts a field in place of that of an entry.
    #[inline(always)]
    pub fn put_field(self, words: &mut [u64], edit: &Edit, v: u64)
        requires column { IsColumn words.old self }
        requires width { self.width ≤ 63 }
        requires value { v < 2 ^ self.width }
        requires within { edit.now.place < self.count }
        requires less { edit.now.less ≡ 1 }
        requires more { edit.now.more ≡ 1 }
        ensures { IsColumnOver words.old self edit.now (replicate edit.now.more (field self.width v)) words.new }
    {
        let at = self.at + edit.place as u64 * self.width;
        set_field(words, at, self.width as u32, v);
    }

    /// Puts a body in place of that of an entry, in a column of `dims` fields for each.
    #[inline(always)]
    pub fn put_row(self, words: &mut [u64], edit: &Edit, level: u32, dims: usize)
        requires column { IsColumn words.old self }
        requires few { dims ≤ 16 }
        requires low { level ≤ 63 }
        requires width { self.width ≡ dims * level }
        requires fields { Each (λ x. x < 2 ^ level) (take dims edit.now.entry.body) }
        requires within { edit.now.place < self.count }
        requires less { edit.now.less ≡ 1 }
        requires more { edit.now.more ≡ 1 }
        ensures { IsColumnOver words.old self edit.now (bodies level (replicate edit.now.more (take dims edit.now.entry.body))) words.new }
    {
        let at = self.at + edit.place as u64 * self.width;
        set_row(words, at, level, dims, &edit.entry.body);
    }
}

// Puts a body in place of the digits from one on.
pub(crate) fn set_row(words: &mut [u64], at: u64, level: u32, dims: usize, body: &[u64; 16])
    requires few { dims ≤ 16 }
    requires low { level ≤ 63 }
    requires inside { at + dims * level ≤ 64 * length words.old }
    requires near { at + dims * level ≤ 2 ^ 62 }
    requires fields { Each (λ x. x < 2 ^ level) (take dims body.now) }
    ensures over { IsOver words.old at (dims * level) (number_of (body_fields level (take dims body.now))) words.new }
    ensures long { length (take dims body.now) ≡ dims }
{
    for i in 0..dims {
        set_field(words, at + i as u64 * level as u64, level, body[i]);
    }
}

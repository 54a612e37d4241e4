//! The end of a change where a record lies, in either layout: the value of an entry that became a child or that went is taken out,
//! or that of one that became a point or that came is put in.

ghost use Rattle.std.specs.Prelude.{◌≡◌, ◌+◌, ◌-◌, ◌^◌, ◌<◌, ◌≤◌, ◌∷◌, ◌++◌, [], length, take, drop, slice_set};
ghost use Rattle.ph_specs.specs.RecordNames.{first_word};
ghost use Rattle.ph_linear.specs.Edited.{IsOutlined, with_values};

use crate::heads::first_of;

/// What is known of a record before an entry of it becomes a child or a point, or comes or goes.
#[derive(Clone, Copy)]
pub struct Outline {
    pub level: u32,
    /// How many entries it has: for the end of the change, how many it has then.
    pub count: usize,
    /// The place of the first value among the words.
    pub values: usize,
    /// How many points stand in front of the entry.
    pub front: usize,
    /// How many of the entries up to this one, which may be a point, are points. It is the same where the entry only comes.
    pub until: usize,
}

impl Outline {
    // Sets the first word of a record that has so many points then.
    #[inline(always)]
    fn set_first(self, words: &mut [u64], layout: u64, points: usize)
        requires layout { layout ≤ 1 }
        requires some { 0 < length words.old }
        requires points { points ≤ self.count }
        requires few { self.count ≤ 2 ^ 16 }
        requires low { self.level ≤ 61 }
        ensures { words.new ≡ slice_set words.old 0 (first_word self.level layout self.count (self.count - points)) }
    {
        words[0] = first_of(self.level, layout, self.count, (self.count - points) as u64);
    }
}

/// Takes the value of the entry, where there is one, out of words whose table was changed already, and sets the first word. The
/// layout is 1 where it is cube. Gives how many words are left: those behind them have no meaning. It takes no memory.
#[inline(always)]
pub fn drop_value(words: &mut [u64], layout: u64, old: Outline) -> usize
    requires layout { layout ≤ 1 }
    requires outline { IsOutlined old [] words.old }
    ensures words { take result words.new ≡ with_values layout old [] words.old }
    ensures len { result ≡ length (with_values layout old [] words.old) }
    ensures same { length words.new ≡ length words.old }
{
    let len = words.len() - (old.until - old.front);
    take_out(words, old.values + old.front, old.values + old.until);
    old.set_first(words, layout, len - old.values);
    len
}

/// Puts the value of the entry, which had none, into words whose table was changed already, and sets the first word. There is one
/// word more behind these, whatever it holds. The layout is 1 where it is cube. It takes no memory.
#[inline(always)]
pub fn put_value(words: &mut [u64], layout: u64, old: Outline, value: u64)
    requires layout { layout ≤ 1 }
    requires some { 1 ≤ length words.old }
    requires none { old.until ≡ old.front }
    requires outline { IsOutlined old (value ∷ []) (take (length words.old - 1) words.old) }
    ensures { words.new ≡ with_values layout old (value ∷ []) (take (length words.old - 1) words.old) }
{
    put_in(words, old.values + old.front, value);
    let points = words.len() - old.values;
    old.set_first(words, layout, points);
}

// Takes out the words from one place up to another.
#[inline(always)]
fn take_out(words: &mut [u64], from: usize, to: usize)
    requires order { from ≤ to }
    requires within { to ≤ length words.old }
    ensures { take (length words.old - (to - from)) words.new ≡ take from words.old ++ drop to words.old }
{
    if from < to {
        words.copy_within(to.., from);
    }
}

// Puts a word in at a place. Those behind it move down over the last one.
#[inline(always)]
fn put_in(words: &mut [u64], at: usize, word: u64)
    requires { at < length words.old }
    ensures { words.new ≡ take at words.old ++ (word ∷ drop at (take (length words.old - 1) words.old)) }
{
    words.copy_within(at..words.len() - 1, at + 1);
    words[at] = word;
}

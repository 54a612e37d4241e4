//! Putting a new point into a linear record where the record lies.

ghost use Rattle.std.specs.Prelude.{◌≡◌, ◌+◌, ◌-◌, ◌^◌, ◌<◌, ◌≤◌, ◌∷◌, ◌++◌, false, length, take, drop};
ghost use Rattle.ph_specs.specs.RecordNames.{record_in, first_in};
ghost use Rattle.ph_model.specs.ModelNames.{IsRecord, AreRising};
ghost use Rattle.ph_bits.specs.Edits.{edited_as};
ghost use Rattle.ph_linear.specs.Resized.{IsOpenable, values_open};

use crate::edits::outline_of;
use crate::heads::first_of;
use crate::outlines::Outline;
use crate::tables::columns_of;
use ph_bits::Edit;

/// Puts a new point entry into a record where the record lies: the record is the first `len` words. Behind them there are as many
/// words more as it grows by, whatever they hold. It takes no memory.
#[inline(always)]
pub fn insert_point(words: &mut [u64], dims: usize, len: usize, edit: &Edit)
    requires front { len ≤ length words.old }
    requires record { IsRecord false dims (take len words.old) }
    requires within { edit.now.place ≤ (first_in (take len words.old)).entries }
    requires less { edit.now.less ≡ 0 }
    requires more { edit.now.more ≡ 1 }
    requires point { edit.now.entry.child ≡ false }
    requires entries { AreRising dims (first_in (take len words.old)).level 0 (edited_as false dims (take len words.old) edit.now) }
    requires long { length words.old
        ≡ length (record_in false dims (first_in (take len words.old)).level (edited_as false dims (take len words.old) edit.now)) }
    ensures { words.new ≡ record_in false dims (first_in (take len words.old)).level (edited_as false dims (take len words.old) edit.now) }
{
    let outline = outline_of(&words[..len], dims, edit);
    let columns = columns_of(&words[..len], dims);
    let points = len - outline.values + 1;
    let values = words.len() - points;
    open_values(words, len, values, outline, edit.value);
    columns.insert(words, outline.level, dims, edit);
    let count = outline.count + 1;
    words[0] = first_of(outline.level, 0, count, (count - points) as u64);
}

// Moves the values of a record of `len` words to where they begin then, and puts a value in.
fn open_values(words: &mut [u64], len: usize, values: usize, old: Outline, value: u64)
    requires { IsOpenable len values old words.old }
    ensures front { take old.values words.new ≡ take old.values words.old }
    ensures values { drop values words.new ≡ values_open len old value words.old }
    ensures same { length words.new ≡ length words.old }
{
    let front = old.values + old.front;
    words.copy_within(front..len, values + old.front + 1);
    words.copy_within(old.values..front, values);
    words[values + old.front] = value;
}

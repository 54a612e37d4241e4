//! Leaving a point out of a linear record where the record lies.

ghost use Rattle.std.specs.Prelude.{◌≡◌, ◌+◌, ◌-◌, ◌^◌, ◌<◌, ◌≤◌, ◌++◌, false, Some, length, map, take, drop, slice_get, slice_set};
ghost use Rattle.ph_specs.specs.RecordNames.{first_word, record_in, first_in};
ghost use Rattle.ph_model.specs.ModelNames.{IsRecord, AreRising, entries_as, is_child};
ghost use Rattle.ph_bits.specs.Edits.{edited_as};
ghost use Rattle.ph_linear.specs.Resized.{IsClosable, values_closed, with_less};

use crate::edits::outline_of;
use crate::heads::first_of;
use crate::outlines::Outline;
use crate::tables::columns_of;
use ph_bits::Edit;

/// Leaves a point entry out of a record where the record lies. Gives how many words the record has then: those that are left over
/// behind them have no meaning. It takes no memory.
#[inline(always)]
pub fn remove_point(words: &mut [u64], dims: usize, edit: &Edit) -> usize
    requires record { IsRecord false dims words.old }
    requires within { edit.now.place < (first_in words.old).entries }
    requires less { edit.now.less ≡ 1 }
    requires more { edit.now.more ≡ 0 }
    requires was { slice_get (map is_child (entries_as false dims words.old)) edit.now.place ≡ Some false }
    requires entries { AreRising dims (first_in words.old).level 0 (edited_as false dims words.old edit.now) }
    ensures words { take result words.new ≡ record_in false dims (first_in words.old).level (edited_as false dims words.old edit.now) }
    ensures len { result ≡ length (record_in false dims (first_in words.old).level (edited_as false dims words.old edit.now)) }
    ensures same { length words.new ≡ length words.old }
{
    let outline = outline_of(words, dims, edit);
    let values = columns_of(words, dims).remove(words, edit.place as u64);
    close_values(words, values, outline)
}

// Moves the values, without that of the entry, to where they begin then, and sets the first word. Gives how many words are left.
fn close_values(words: &mut [u64], values: usize, old: Outline) -> usize
    requires { IsClosable values old words.old }
    ensures words { take result words.new ≡ with_less values old words.old }
    ensures len { result ≡ length (with_less values old words.old) }
    ensures same { length words.new ≡ length words.old }
{
    let front = old.values + old.front;
    let behind = old.values + old.until;
    let points = old.front + (words.len() - behind);
    words.copy_within(old.values..front, values);
    words.copy_within(behind.., values + old.front);
    let count = old.count - 1;
    words[0] = first_of(old.level, 0, count, (count - points) as u64);
    values + points
}

//! The columns of a linear record, one behind the other, and the same with an entry less or more where they lie.

ghost use Rattle.std.specs.Prelude.{◌≡◌, ◌+◌, ◌-◌, ◌*◌, ◌/◌, ◌%◌, ◌^◌, ◌<◌, ◌≤◌, false, length, take};
ghost use Rattle.std.specs.List.{AllByRecursion as Each};
ghost use Rattle.ph_specs.specs.RecordNames.{digits_of, words_for, first_in};
ghost use Rattle.ph_model.specs.ModelNames.{IsRecord};
ghost use Rattle.ph_bits.specs.Moved.{IsMoved};
ghost use Rattle.ph_linear.specs.Edited.{IsColumn, IsOver};
ghost use Rattle.ph_linear.specs.Runs.{AreColumns, AreColumnsOf, digits_more, runs_without, runs_with, with_fields};

use crate::copies::{Column, set_row};
use crate::edits::{addresses_of, bodies_of, kinds_of};
use ph_bits::{Edit, move_down, move_up, set_field};

/// The columns of the kinds, the addresses and the bodies.
#[derive(Clone, Copy)]
pub struct Columns {
    pub kinds: Column,
    pub addresses: Column,
    pub bodies: Column,
}

/// The columns of a record.
#[inline(always)]
pub fn columns_of(old: &[u64], dims: usize) -> Columns
    requires { IsRecord false dims old.now }
    ensures { AreColumnsOf dims old.now result }
{
    Columns {
        kinds: kinds_of(old, dims),
        addresses: addresses_of(old, dims),
        bodies: bodies_of(old, dims),
    }
}

impl Columns {
    /// Leaves the fields of an entry out. Those behind it move down, and zeros fill the last word. Gives how many words there are
    /// up to that one. It takes no memory.
    pub fn remove(&self, words: &mut [u64], place: u64) -> usize
        requires columns { AreColumns words.old self.now }
        requires within { place < self.now.kinds.count }
        ensures words { words.new ≡ with_fields (runs_without words.old self.now place) words.old }
        ensures place { result ≡ 1 + words_for (digits_of (runs_without words.old self.now place)) }
    {
        let addresses = self.addresses.start(place);
        let bodies = self.bodies.start(place);
        let end = self.bodies.start(self.bodies.count);
        let to = self.kinds.start(place);
        let from = self.kinds.start(place + 1);
        let to = close_run(words, to, from, addresses);
        let from = self.addresses.start(place + 1);
        let to = close_run(words, to, from, bodies);
        let from = self.bodies.start(place + 1);
        let to = close_run(words, to, from, end);
        clear_word(words, to)
    }

    /// Puts the fields of a new entry in. Those behind its place move up, and zeros fill the last word. It takes no memory.
    pub fn insert(&self, words: &mut [u64], level: u32, dims: usize, edit: &Edit)
        requires columns { AreColumns words.old self.now }
        requires within { edit.now.place ≤ self.now.kinds.count }
        requires few { dims ≤ 16 }
        requires low { level ≤ 63 }
        requires addresses { self.now.addresses.width ≡ dims }
        requires bodies { self.now.bodies.width ≡ dims * level }
        requires address { edit.now.entry.addr < 2 ^ dims }
        requires fields { Each (λ x. x < 2 ^ level) (take dims edit.now.entry.body) }
        requires room { 1 + words_for (digits_more self.now) ≤ length words.old }
        ensures { words.new ≡ with_fields (runs_with words.old self.now level dims edit.now) words.old }
    {
        let place = edit.place as u64;
        let kinds = self.kinds.start(place);
        let addresses = self.addresses.start(place);
        let bodies = self.bodies.start(place);
        let end = self.bodies.start(self.bodies.count);
        let until = end + 1 + self.addresses.width + self.bodies.width;
        clear_word(words, until);
        let behind = open_run(words, bodies, end, until);
        let body = behind - self.bodies.width;
        set_row(words, body, level, dims, &edit.entry.body);
        let behind = open_run(words, addresses, bodies, body);
        let address = behind - self.addresses.width;
        set_field(
            words,
            address,
            self.addresses.width as u32,
            edit.entry.addr as u64,
        );
        let behind = open_run(words, kinds, addresses, address);
        set_field(words, behind - 1, 1, 0);
    }
}

// Moves the digits from one up to another down to a third. Gives where they end then.
#[inline(always)]
fn close_run(words: &mut [u64], to: u64, from: u64, until: u64) -> u64
    requires order { to ≤ from }
    requires run { from ≤ until }
    requires inside { until ≤ 64 * length words.old }
    requires near { until ≤ 2 ^ 62 }
    ensures moved { IsMoved words.old from to (until - from) words.new }
    ensures end { result ≡ to + (until - from) }
{
    move_down(words, from, to, until - from);
    to + (until - from)
}

// Moves the digits from one up to another up, to end at a third. Gives where they begin then.
#[inline(always)]
fn open_run(words: &mut [u64], from: u64, until: u64, end: u64) -> u64
    requires run { from ≤ until }
    requires order { until ≤ end }
    requires inside { end ≤ 64 * length words.old }
    requires near { end ≤ 2 ^ 62 }
    ensures moved { IsMoved words.old from (end - (until - from)) (until - from) words.new }
    ensures begin { result ≡ end - (until - from) }
{
    let to = end - (until - from);
    move_up(words, from, to, until - from);
    to
}

// Puts zeros into the digits from one on up to the end of the word. Gives how many words there are up to there.
#[inline(always)]
fn clear_word(words: &mut [u64], from: u64) -> usize
    requires inside { from ≤ 64 * length words.old }
    requires near { from ≤ 2 ^ 62 }
    ensures over { IsOver words.old from (64 * ((from + 63) / 64) - from) 0 words.new }
    ensures place { result ≡ (from + 63) / 64 }
{
    set_field(words, from, ((64 - from % 64) % 64) as u32, 0);
    ((from + 63) / 64) as usize
}

//! Files that are kept in memory, in the order of their names.
ghost use Rattle.std.specs.Prelude.{◌≡◌, ◌<◌, ◌≤◌, ◌↔◌, ◌+◌, [], All, map, length, option_map, IfOk, IsTrue, if◌then◌else◌, vec_len, vec_capacity};
ghost use Rattle.std.specs.List.{insert};
ghost use Rattle.ph_specs.specs.ProgramNames.{lookup, enter};
ghost use Rattle.ph_io.specs.Storing.{file_of, IsRoomy, IsPlace};

use crate::NoMemory;
use arrayvec::ArrayString;
use std::alloc::Global;
use std::cmp::Ordering;

/// A file: its name and its bytes.
#[derive(Drop)]
pub(crate) struct Stored {
    pub(crate) name: ArrayString<255>,
    pub(crate) bytes: Vec<u8>,
}

impl Stored {
    /// An empty file of no name, with room for `room` bytes. All its memory is taken here.
    pub(crate) fn empty(alloc: Global, room: usize) -> Result<Stored, NoMemory>
        ensures file { IfOk result (λ s. file_of s ≡ ([], [])) }
        ensures room { IfOk result (λ s. IsRoomy room s) }
    {
        Ok(Stored {
            name: ArrayString::new(),
            bytes: Vec::with_capacity(alloc, room)?,
        })
    }

    /// Makes the file these bytes under this name, in room that is there.
    pub(crate) fn fill(&mut self, name: &str, bytes: &[u8])
        requires name { length name.now ≤ 255 }
        requires room { length bytes.now ≤ vec_capacity self.old.bytes }
        ensures file { file_of self.new ≡ (name.now, bytes.now) }
        ensures capacity { vec_capacity self.old.bytes ≤ vec_capacity self.new.bytes }
    {
        self.name.clear();
        self.name.push_str(name);
        self.bytes.clear();
        self.bytes.extend_from_slice(bytes).unwrap();
    }
}

/// Where a name stands among files, or else where it goes in.
fn place_of(stored: &[Stored], name: &str) -> Result<usize, usize>
    ensures { IsPlace (map file_of stored.now) name.now result }
{
    for (i, file) in stored.iter().enumerate() {
        match name.cmp(file.name.as_str()) {
            Ordering::Less => return Err(i),
            Ordering::Equal => return Ok(i),
            Ordering::Greater => {}
        }
    }
    Err(stored.len())
}

/// The bytes of the file of a name, if there is one.
pub(crate) fn bytes_of<'s>(stored: &'s [Stored], name: &str) -> Option<&'s [u8]>
    ensures { option_map (λ s. s.now) result ≡ lookup name.now (map file_of stored.now) }
{
    for file in stored {
        if name.cmp(file.name.as_str()).is_eq() {
            return Some(file.bytes.as_slice());
        }
    }
    None
}

/// Inserts a file into room that is there.
fn insert_within(stored: &mut Vec<Stored>, i: usize, file: Stored)
    requires place { i ≤ vec_len stored.old }
    requires room { vec_len stored.old < vec_capacity stored.old }
    ensures items { stored.new.items ≡ insert stored.old.items i file }
    ensures len { vec_len stored.new ≡ vec_len stored.old + 1 }
    ensures capacity { vec_capacity stored.old ≤ vec_capacity stored.new }
{
    match stored.insert(i, file) {
        Ok(()) => {}
        Err(_) => unreachable!(),
    }
}

/// Puts a file among the files, in place of one of its name or else in one that is to spare.
/// False, with all as before, where it needs one and none is left.
pub(crate) fn keep(
    stored: &mut Vec<Stored>,
    spare: &mut Vec<Stored>,
    room: usize,
    name: &str,
    bytes: &[u8],
) -> bool
    requires name { length name.now ≤ 255 }
    requires bytes { length bytes.now ≤ room }
    requires names { vec_len stored.old + vec_len spare.old ≤ vec_capacity stored.old }
    requires stored { All (IsRoomy room) stored.old.items }
    requires spare { All (IsRoomy room) spare.old.items }
    ensures room { IsTrue result ↔ (length (enter name.now bytes.now (map file_of stored.old.items)) ≤ vec_len stored.old + vec_len spare.old) }
    ensures files { map file_of stored.new.items ≡ (if result then enter name.now bytes.now (map file_of stored.old.items) else map file_of stored.old.items) }
    ensures names { vec_len stored.new + vec_len spare.new ≡ vec_len stored.old + vec_len spare.old }
    ensures capacity { vec_capacity stored.old ≤ vec_capacity stored.new }
    ensures stored { All (IsRoomy room) stored.new.items }
    ensures spare { All (IsRoomy room) spare.new.items }
{
    match place_of(stored, name) {
        Ok(i) => stored[i].fill(name, bytes),
        Err(i) => {
            let Some(mut file) = spare.pop() else {
                return false;
            };
            file.fill(name, bytes);
            insert_within(stored, i, file);
        }
    }
    true
}

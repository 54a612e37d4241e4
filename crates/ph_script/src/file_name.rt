//! The names of files.
ghost use Rattle.std.specs.Prelude.{◌≡◌, ◌≤◌, length, true, nat_eq};
ghost use Rattle.std.specs.Option.{SomeIff};
ghost use Rattle.std.specs.List.{list_all};
ghost use Rattle.std.specs.Cmp.{partial_equiv_from_equiv};
ghost use Rattle.std.specs.Cmp.Lexicographic.{pointwise, nat_list_eq_equiv};
ghost use Rattle.ph_specs.specs.ProgramNames.{is_file_name, is_printed};

use std::marker::Model;
use std::{fmt, str};

// The most bytes of a name.
const MOST: usize = 255;

/// A file's name: 1 to 255 bytes, each from `!` to `~`. They lie elsewhere, as in the line that names the file.
#[derive(Drop)]
pub struct FileName<'t> {
    text: &'t str,
}

impl<'t> Model for FileName<'t> {
    ghost use Rattle.std.specs.Prelude.{◌≡◌, ℕ, List, true};
    ghost use Rattle.ph_specs.specs.ProgramNames.{is_file_name};

    ghost Value = { List ℕ };

    ghost view = { λ f. f.text.now };

    ghost invariant = { λ f. is_file_name f.text.now ≡ true };
}

impl<'t> FileName<'t> {
    /// The name that a text is, if it is one.
    pub fn new(text: &'t str) -> Option<FileName<'t>>
        ensures { SomeIff result (is_file_name text.now ≡ true) text.now }
    {
        if is_file_name(text.as_bytes()) {
            Some(FileName { text })
        } else {
            None
        }
    }

    pub(crate) fn from_bytes(word: &'t [u8]) -> Option<FileName<'t>>
        ensures { SomeIff result (is_file_name word.now ≡ true) word.now }
    {
        match str::from_utf8(word) {
            Ok(text) => FileName::new(text),
            Err(_) => None,
        }
    }

    /// The name.
    pub fn as_str(&self) -> &str
        ensures value { result.now ≡ self.now }
        ensures name { is_file_name result.now ≡ true }
        ensures limit { length result.now ≤ 255 }
    {
        self.text
    }
}

fn is_file_name(word: &[u8]) -> bool
    ensures { result ≡ is_file_name word.now }
{
    !word.is_empty() && word.len() <= MOST && are_printed(word)
}

fn are_printed(word: &[u8]) -> bool
    ensures { result ≡ list_all is_printed word.now }
{
    word.iter().all(|byte| is_printed(*byte))
}

fn is_printed(byte: u8) -> bool
    ensures { result ≡ is_printed byte }
{
    matches!(byte, b'!'..=b'~')
}

impl PartialEq for FileName<'_> {
    ghost eq = { pointwise nat_eq };

    ghost laws = { partial_equiv_from_equiv nat_list_eq_equiv };

    fn eq(&self, other: &Self) -> bool {
        self.as_str() == other.as_str()
    }
}

impl Eq for FileName<'_> {
    ghost laws = { nat_list_eq_equiv };
}

impl fmt::Debug for FileName<'_> {
    fn fmt<W: fmt::Write>(&self, f: &mut fmt::Formatter<W>) -> fmt::Result {
        fmt::Debug::fmt(&self.as_str(), f)
    }
}

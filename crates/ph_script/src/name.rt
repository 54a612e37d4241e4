//! The names of cursors.
ghost use Rattle.std.specs.Prelude.{◌≡◌, Some, true, nat_eq, refl};
ghost use Rattle.std.specs.Option.{SomeIff};
ghost use Rattle.std.specs.List.{list_all};
ghost use Rattle.std.specs.Ordering.{nat_cmp};
ghost use Rattle.std.specs.Cmp.{partial_equiv_from_equiv};
ghost use Rattle.std.specs.Cmp.Lexicographic.{pointwise, slice_cmp, nat_list_eq_equiv, nat_list_cmp_total, texts_po, texts_ties};
ghost use Rattle.ph_specs.specs.ProgramNames.{is_name, is_name_byte};

use std::cmp::Ordering;
use std::marker::Model;
use std::{fmt, str};

// The most bytes of a name.
const MOST: usize = 32;

/// A cursor's name: 1 to 32 bytes, each a letter, a digit, `_` or `-`. They lie in the value itself.
///
/// Names are in the order of their bytes.
#[derive(Clone, Copy)]
pub struct Name {
    // Behind the name there are zeros, so that equal names have equal fields.
    bytes: [u8; MOST],
    len: usize,
}

impl Model for Name {
    ghost use Rattle.std.specs.Prelude.{ℕ, List, length, take};
    ghost use Rattle.std.proofs.Common.{sym};
    ghost use Rattle.ph_script.specs.KeptName.{padded, IsKept};

    ghost Value = { List ℕ };

    ghost view = { λ n. take n.len n.bytes };

    ghost invariant = { λ n. IsKept n.bytes n.len };

    ghost inverse = { λ n. record { bytes = padded n; len = length n } };

    ghost inverse_ok = { λ n h i. record { bytes = sym h.zeros i; len = h.size i } };
}

impl Name {
    /// The name that a text is, if it is one.
    pub fn new(text: &str) -> Option<Name>
        ensures { SomeIff result (is_name text.now ≡ true) text.now }
    {
        Name::from_bytes(text.as_bytes())
    }

    pub(crate) fn from_bytes(word: &[u8]) -> Option<Name>
        ensures { SomeIff result (is_name word.now ≡ true) word.now }
    {
        if !is_name(word) {
            return None;
        }
        let mut bytes = [0; MOST];
        bytes[..word.len()].copy_from_slice(word);
        Some(Name {
            bytes,
            len: word.len(),
        })
    }

    /// The name.
    pub fn as_str(&self) -> &str
        ensures { result.now ≡ self.now }
    {
        match str::from_utf8(self.as_bytes()) {
            Ok(text) => text,
            Err(_) => unreachable!(),
        }
    }

    fn as_bytes(&self) -> &[u8]
        ensures value { result.now ≡ self.now }
        ensures name { is_name result.now ≡ true }
    {
        &self.bytes[..self.len]
    }
}

fn is_name(word: &[u8]) -> bool
    ensures { result ≡ is_name word.now }
{
    !word.is_empty() && word.len() <= MOST && are_name_bytes(word)
}

fn are_name_bytes(word: &[u8]) -> bool
    ensures { result ≡ list_all is_name_byte word.now }
{
    word.iter().all(|byte| is_name_byte(*byte))
}

fn is_name_byte(byte: u8) -> bool
    ensures { result ≡ is_name_byte byte }
{
    matches!(byte, b'0'..=b'9' | b'A'..=b'Z' | b'a'..=b'z' | b'_' | b'-')
}

impl PartialEq for Name {
    ghost eq = { pointwise nat_eq };

    ghost laws = { partial_equiv_from_equiv nat_list_eq_equiv };

    fn eq(&self, other: &Self) -> bool {
        self.as_bytes() == other.as_bytes()
    }
}

impl Eq for Name {
    ghost laws = { nat_list_eq_equiv };
}

impl PartialOrd for Name {
    ghost partial_cmp = { λ s t. Some (slice_cmp nat_cmp s t) };

    ghost laws = { texts_po };

    fn partial_cmp(&self, other: &Self) -> Option<Ordering> {
        Some(self.cmp(other))
    }
}

impl Ord for Name {
    ghost cmp = { slice_cmp nat_cmp };

    ghost total = { nat_list_cmp_total };

    ghost matches_partial_cmp = { λ s t. refl };

    ghost matches_eq = { texts_ties };

    fn cmp(&self, other: &Self) -> Ordering {
        self.as_bytes().cmp(other.as_bytes())
    }
}

impl fmt::Debug for Name {
    fn fmt<W: fmt::Write>(&self, f: &mut fmt::Formatter<W>) -> fmt::Result {
        fmt::Debug::fmt(&self.as_str(), f)
    }
}

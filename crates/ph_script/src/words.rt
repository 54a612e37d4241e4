//! The words of a line.
ghost use Rattle.std.specs.Prelude.{◌≡◌, ◌<◌, ◌≤◌, ◌∷◌, [], length, take, not, true, false, MatchOption, IfSome};
ghost use Rattle.std.specs.List.{position, position_or_len};
ghost use Rattle.ph_specs.specs.ProgramNames.{is_blank, words};
ghost use Rattle.ph_script.specs.Words.{IsNumbered};

use crate::numbers::{Short, number_at};

/// A word of a line, with the number that it spells where that is known.
#[derive(Clone, Copy)]
pub(crate) struct Word<'t> {
    pub text: &'t [u8],
    pub number: Option<Short>,
}

pub(crate) fn is_blank(byte: u8) -> bool
    ensures { result ≡ is_blank byte }
{
    byte == b' ' || byte == b'\t'
}

fn first_blank(text: &[u8]) -> Option<usize>
    ensures { result ≡ position is_blank text.now }
{
    text.iter().position(|b| is_blank(*b))
}

fn first_other(text: &[u8]) -> Option<usize>
    ensures { result ≡ position (λ b. not (is_blank b)) text.now }
{
    text.iter().position(|b| !is_blank(*b))
}

// Whether there is a word.
#[tactic(auto, using(crate::proofs::WordCuts::no_word, crate::proofs::WordCuts::some_word))]
pub(crate) fn has_word(text: &[u8]) -> bool
    ensures none { result ≡ false → words text.now ≡ [] }
    ensures some { result ≡ true → 0 < length (words text.now) }
{
    first_other(text).is_some()
}

// The first word, and what stands behind it.
#[tactic(auto, using(crate::proofs::WordCuts::no_word))]
#[inline(always)]
pub(crate) fn next_word(text: &[u8]) -> Option<(Word<'_>, &[u8])>
    ensures value { MatchOption result (words text.now ≡ []) (λ r. words text.now ≡ r.0.text.now ∷ words r.1.now) }
    ensures some { IfSome result (λ r. 0 < length r.0.text.now) }
    ensures number { IfSome result (λ r. IsNumbered r.0.text.now r.0.number) }
    ensures shorter { IfSome result (λ r. length r.1.now < length text.now) }
{
    let Some(start) = first_other(text) else {
        return None;
    };
    let (_, text) = text.split_at(start);
    let (number, end) = front_word(text);
    let (text, rest) = text.split_at(end);
    Some((Word { text, number }, rest))
}

// The number that the word at the front of a text spells, where that is known, and the length of the word.
#[tactic(auto, using(crate::proofs::WordCuts::first_or_len, crate::proofs::WordCuts::number_front))]
#[inline(always)]
fn front_word(text: &[u8]) -> (Option<Short>, usize)
    requires { 0 < length text.now }
    ensures end { result.1 ≡ position_or_len is_blank text.now }
    ensures within { result.1 ≤ length text.now }
    ensures number { IsNumbered (take result.1 text.now) result.0 }
{
    match number_at(text, 0) {
        Some((number, end)) => (Some(number), end),
        None => (None, first_blank(text).unwrap_or(text.len())),
    }
}

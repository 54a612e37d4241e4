//! The first word of a record, in either layout.

ghost use Rattle.std.specs.Prelude.{◌≡◌, ◌^◌, ◌<◌, ◌≤◌, length};
ghost use Rattle.ph_specs.specs.RecordNames.{first_word, first_in};

/// How many entries a record has.
#[inline(always)]
pub fn count_in(words: &[u64]) -> u64
    requires { 0 < length words.now }
    ensures { result ≡ (first_in words.now).entries }
{
    (words[0] >> 24) % 0x100_0000
}

/// How many of them are children.
#[inline(always)]
pub fn children_in(words: &[u64]) -> u64
    requires { 0 < length words.now }
    ensures { result ≡ (first_in words.now).children }
{
    words[0] % 0x100_0000
}

/// The level of a record.
#[inline(always)]
pub fn level_in(words: &[u64]) -> u32
    requires { 0 < length words.now }
    ensures { result ≡ (first_in words.now).level }
{
    (words[0] >> 56) as u32
}

/// The first word of a record, whose layout is 1 where it is cube.
pub fn first_of(level: u32, layout: u64, count: usize, children: u64) -> u64
    requires level { level ≤ 61 }
    requires layout { layout ≤ 1 }
    requires count { count ≤ 2 ^ 16 }
    requires children { children ≤ count }
    ensures { result ≡ first_word level layout count children }
{
    ((level as u64) << 56) + (layout << 48) + ((count as u64) << 24) + children
}

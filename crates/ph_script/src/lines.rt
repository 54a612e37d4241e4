//! The lines of a script that comes in pieces.
ghost use Rattle.std.specs.Prelude.{◌≡◌, ◌+◌, ◌≤◌, ◌<◌, ◌++◌, [], length, drop, if◌then◌else◌, MatchOption, IfOk, vec_len, vec_capacity};
ghost use Rattle.std.specs.List.{position};
ghost use Rattle.std.specs.Borrow.{sem};
ghost use Rattle.ph_script.specs.Shown.{is_feed, feed_at, before_feed, kept, unended, IsLine};

use memchr::memchr;
use std::alloc::{AllocError, Global};
use std::marker::Model;

/// No memory is left.
pub type NoMemory = AllocError;

// The most bytes of a line that is no refusal, with a carriage return at its end.
const LONGEST: usize = 4096;

// What is kept of a line: one byte more than of the longest, since a longer line is refused by its length alone.
const KEPT: usize = LONGEST + 1;

/// A line of a script.
#[derive(Clone, Copy, Debug, PartialEq, Eq)]
pub enum Line<'l> {
    /// At most 4,096 bytes, without the line feed and without one carriage return at the end.
    Text(&'l [u8]),
    /// More than 4,096 bytes, a carriage return at the end counted.
    Long,
}

/// The line that is being read, whose bytes may come in any pieces.
///
/// It is seen as the bytes since the last line feed, up to 4,097 of them; what is past these is dropped. A line that lies
/// whole in a piece is not copied.
#[derive(Drop, Debug)]
pub struct Lines {
    buffer: Vec<u8>,
    // The line in the buffer has ended and was handed out.
    is_over: bool,
}

impl Model for Lines {
    ghost use Rattle.std.specs.Prelude.{List, ℕ, ◌≤◌, [], if◌then◌else◌, vec_len, vec_capacity};

    ghost Value = { List ℕ };

    ghost view = { λ a. if a.is_over then [] else a.buffer.items };

    ghost invariant = { λ a. (vec_len a.buffer ≤ 4097) × (4097 ≤ vec_capacity a.buffer) };
}

impl Lines {
    ghost use Rattle.ph_script.specs.Unended.{Rests};

    /// A script of which nothing was read. It takes the buffer of 4,097 bytes, and fails where there is no memory for it.
    /// No other call takes memory.
    pub fn new(alloc: Global) -> Result<Lines, NoMemory>
        ensures { IfOk result (λ lines. lines ≡ []) }
    {
        let buffer = Vec::with_capacity(alloc, KEPT)?;
        Ok(Lines {
            buffer,
            is_over: false,
        })
    }

    /// Goes on in a piece of the script from a place, up to the next line feed, and gives the line that this ends.
    ///
    /// The place is then behind that line feed, or at the end of a piece without one, which gives no line.
    pub fn next_line<'l>(&'l mut self, piece: &'l [u8], at: &mut usize) -> Option<Line<'l>>
        requires { at.old ≤ length piece.now }
        ensures* rests { sem 𝓛 (Rests self.entry (unended self.old (drop at.old piece.now))) }
        ensures given { MatchOption result
            (feed_at (drop at.old piece.now) ≡ length (drop at.old piece.now))
            (λ line. (feed_at (drop at.old piece.now) < length (drop at.old piece.now)) × IsLine (self.old ++ before_feed (drop at.old piece.now)) line) }
        ensures place { MatchOption result (at.new ≡ length piece.now) (λ _. at.new ≡ at.old + feed_at (drop at.old piece.now) + 1) }
    {
        begin(&mut self.buffer, self.is_over);
        let (_, rest) = piece.split_at(*at);
        match first_feed(rest) {
            Some(end) => {
                let (line, _) = rest.split_at(end);
                *at += end + 1;
                self.is_over = true;
                let is_whole = self.buffer.is_empty();
                if is_whole {
                    return Some(show(line));
                }
                keep(&mut self.buffer, line);
                Some(show(&self.buffer))
            }
            None => {
                keep(&mut self.buffer, rest);
                *at = piece.len();
                self.is_over = false;
                None
            }
        }
    }

    /// The line that the end of the script ends, if any byte came behind the last line feed.
    pub fn last(&mut self) -> Option<Line<'_>>
        ensures* rests { sem 𝓛 (Rests self.entry []) }
        ensures given { MatchOption result (self.old ≡ []) (λ line. (0 < length self.old) × IsLine self.old line) }
    {
        begin(&mut self.buffer, self.is_over);
        self.is_over = true;
        if self.buffer.is_empty() {
            return None;
        }
        Some(show(&self.buffer))
    }
}

// Empties the buffer of a line that is over.
fn begin(buffer: &mut Vec<u8>, is_over: bool)
    ensures items { buffer.new.items ≡ (if is_over then [] else buffer.old.items) }
    ensures len { vec_len buffer.new ≤ vec_len buffer.old }
    ensures capacity { vec_capacity buffer.new ≡ vec_capacity buffer.old }
{
    if is_over {
        buffer.clear();
    }
}

// Appends what the buffer has room for.
fn keep(buffer: &mut Vec<u8>, bytes: &[u8])
    requires len { vec_len buffer.old ≤ KEPT }
    requires capacity { KEPT ≤ vec_capacity buffer.old }
    ensures items { buffer.new.items ≡ kept (buffer.old.items ++ bytes.now) }
    ensures len { vec_len buffer.new ≤ KEPT }
    ensures capacity { KEPT ≤ vec_capacity buffer.new }
{
    let room = KEPT - buffer.len();
    let (bytes, _) = bytes.split_at(room.min(bytes.len()));
    match buffer.extend_from_slice(bytes) {
        Ok(()) => {}
        Err(_) => unreachable!(),
    }
}

fn first_feed(bytes: &[u8]) -> Option<usize>
    ensures { result ≡ position is_feed bytes.now }
{
    memchr(b'\n', bytes)
}

fn show(line: &[u8]) -> Line<'_>
    ensures { IsLine line.now result }
{
    if LONGEST < line.len() {
        return Line::Long;
    }
    match line {
        [text @ .., b'\r'] => Line::Text(text),
        _ => Line::Text(line),
    }
}

//! The texts of replies.
ghost use Rattle.std.specs.Prelude.{◌≡◌, ◌≤◌, ◌+◌, ◌*◌, ◌∷◌, [], ◌++◌, length, codes, decimal};
ghost use Rattle.ph_specs.specs.ProgramNames.{Reply as Replied, reply_text as text_of_reply, row_words, line_of};
ghost use Rattle.ph_script.specs.Meaning.{reply_of};
ghost use Rattle.ph_script.specs.LineParts.{text_by, IsShort};
ghost use Rattle.ph_script.specs.RowNumbers.{numbers_line, row_numbers};

use crate::reply::Reply;
use arrayvec::ArrayString;
use itoa::{Buffer, Integer};
use ph_coord::Row;
use ph_specs::Which;
use std::marker::Model;

// The bytes of the longest line that the script language has: `pair`, twice 16 coordinates and a value of 64 bits, with a
// space before each number, and a line feed.
const LONGEST: usize = 4 + 2 * (16 * (1 + 20) + (1 + 20)) + 1;

/// The line of a reply with its line feed. Its bytes lie in the value itself, and it is seen as these bytes.
///
/// One text can serve for many replies, one after another.
#[derive(Debug, Drop)]
pub struct Text {
    line: ArrayString<LONGEST>,
}

impl Model for Text {
    ghost use Rattle.std.specs.Prelude.{List, ℕ};

    ghost Value = { List ℕ };

    ghost view = { λ t. t.line.bytes };
}

impl Text {
    /// A text without a byte.
    pub fn new() -> Text
        ensures { result ≡ [] }
    {
        Text {
            line: ArrayString::new(),
        }
    }

    /// The line.
    pub fn as_str(&self) -> &str
        ensures { result.now ≡ self.now }
    {
        self.line.as_str()
    }
}

/// The line of a reply: its words, with a space between each two, and a line feed.
pub fn reply_text(reply: &Reply) -> Text
    ensures { result ≡ text_of_reply (reply_of reply.now) }
{
    let mut text = Text::new();
    write_text(&mut text, reply);
    text
}

// What the line of a reply is made of: a whole line, a word with a number behind it, or a faulty record by its number and a word for the fault.
#[derive(Clone, Copy)]
enum LineParts {
    Fixed(&'static str),
    Numbered(&'static str, u64),
    Wide(&'static str, u128),
    Record(u64, &'static str),
}

fn parts_of(reply: &Reply) -> LineParts
    ensures text { text_of_reply (reply_of reply.now) ≡ text_by result }
    ensures short { IsShort result }
{
    match reply {
        Reply::Opened => LineParts::Fixed("opened\n"),
        Reply::New => LineParts::Fixed("new\n"),
        Reply::Old(value) => LineParts::Numbered("old", *value),
        Reply::Value(value) => LineParts::Numbered("value", *value),
        Reply::Absent => LineParts::Fixed("none\n"),
        Reply::Gone(value) => LineParts::Numbered("gone", *value),
        Reply::Moved => LineParts::Fixed("moved\n"),
        Reply::Taken => LineParts::Fixed("taken\n"),
        Reply::Rows(count) => LineParts::Numbered("count", *count),
        Reply::Cleared => LineParts::Fixed("cleared\n"),
        Reply::End(count) => LineParts::Wide("end", *count),
        Reply::More(count) => LineParts::Numbered("more", u64::from(*count)),
        Reply::Ready => LineParts::Fixed("ready\n"),
        Reply::Saved(count) => LineParts::Wide("saved", *count),
        Reply::Loaded(count) => LineParts::Numbered("loaded", *count),
        Reply::Imported(count) => LineParts::Numbered("imported", *count),
        Reply::Exported(count) => LineParts::Numbered("exported", *count),
        Reply::Using(Which::A) => LineParts::Fixed("using a\n"),
        Reply::Using(Which::B) => LineParts::Fixed("using b\n"),
        Reply::Same => LineParts::Fixed("same\n"),
        Reply::Differ => LineParts::Fixed("differ\n"),
        Reply::Combined(count) => LineParts::Numbered("result", *count),
        Reply::Keeping(count) => LineParts::Numbered("keeping", u64::from(*count)),
        Reply::WentBack(count) => LineParts::Numbered("back", u64::from(*count)),
        Reply::ErrorLong => LineParts::Fixed("error long\n"),
        Reply::ErrorWord => LineParts::Fixed("error word\n"),
        Reply::ErrorCount => LineParts::Fixed("error count\n"),
        Reply::ErrorNumber => LineParts::Fixed("error number\n"),
        Reply::ErrorName => LineParts::Fixed("error name\n"),
        Reply::ErrorDims => LineParts::Fixed("error dims\n"),
        Reply::ErrorKind => LineParts::Fixed("error kind\n"),
        Reply::ErrorRange => LineParts::Fixed("error range\n"),
        Reply::ErrorReversed => LineParts::Fixed("error reversed\n"),
        Reply::ErrorCursor => LineParts::Fixed("error cursor\n"),
        Reply::ErrorCursors => LineParts::Fixed("error cursors\n"),
        Reply::ErrorFile => LineParts::Fixed("error file\n"),
        Reply::ErrorFull => LineParts::Fixed("error full\n"),
        Reply::ErrorPast => LineParts::Fixed("error past\n"),
        Reply::BadMagic => LineParts::Fixed("bad magic\n"),
        Reply::BadHeader(at) => LineParts::Numbered("bad header", *at),
        Reply::BadDims => LineParts::Fixed("bad dims\n"),
        Reply::BadShort(at) => LineParts::Numbered("bad short", *at),
        Reply::BadNode(at) => LineParts::Numbered("bad node", *at),
        Reply::BadExtra(at) => LineParts::Numbered("bad extra", *at),
        Reply::BadFields(number) => LineParts::Record(*number, "fields"),
        Reply::BadNumber(number) => LineParts::Record(*number, "number"),
        Reply::BadRange(number) => LineParts::Record(*number, "range"),
        Reply::BadReversed(number) => LineParts::Record(*number, "reversed"),
    }
}

/// Makes a text the line of a reply, whatever it was before.
pub fn write_text(text: &mut Text, reply: &Reply)
    ensures { text.new ≡ text_of_reply (reply_of reply.now) }
{
    let line = &mut text.line;
    line.clear();
    match parts_of(reply) {
        LineParts::Fixed(words) => line.push_str(words),
        LineParts::Numbered(word, number) => push_numbered(line, word, number),
        LineParts::Wide(word, number) => push_numbered(line, word, number),
        LineParts::Record(number, fault) => push_record(line, number, fault),
    }
}

/// Makes a text the line of a row that was found, whatever it was before. The line begins with `row`.
pub fn write_row<const D: usize>(text: &mut Text, row: &Row<D>)
    requires { D ≤ 16 }
    ensures { text.new ≡ text_of_reply (Replied.RowIs row.now) }
{
    text.line.clear();
    push_row(&mut text.line, row);
}

/// Makes a text the line of a row that was found near a point, with the square of its distance. The line begins with `hit`.
pub fn write_hit<const D: usize>(text: &mut Text, distance: u128, row: &Row<D>)
    requires { D ≤ 16 }
    ensures { text.new ≡ text_of_reply (Replied.HitIs distance row.now) }
{
    text.line.clear();
    push_hit(&mut text.line, distance, row);
}

/// Makes a text the line of two rows whose boxes overlap, whatever it was before. The line begins with `pair`.
pub fn write_pair<const D: usize>(text: &mut Text, first: &Row<D>, second: &Row<D>)
    requires { D ≤ 16 }
    ensures { text.new ≡ text_of_reply (Replied.PairIs first.now second.now) }
{
    text.line.clear();
    push_pair(&mut text.line, first, second);
}

// A word, a number and a line feed.
fn push_numbered<I: Integer>(line: &mut ArrayString<LONGEST>, word: &str, number: I)
    requires { length line.old.bytes + length word.now + 1 + I.MAX_STR_LEN + 1 ≤ LONGEST }
    ensures { line.new.bytes ≡ line.old.bytes ++ word.now ++ 32 ∷ I.text number ++ 10 ∷ [] }
{
    line.push_str(word);
    push_number(line, number);
    line.push_str("\n");
}

// The line of a faulty record, by its number and a word for the fault.
fn push_record(line: &mut ArrayString<LONGEST>, number: u64, fault: &str)
    requires empty { line.old.bytes ≡ [] }
    requires room { length fault.now ≤ 16 }
    ensures { line.new.bytes ≡ line_of (codes "bad" ∷ codes "record" ∷ decimal number ∷ fault.now ∷ []) }
{
    line.push_str("bad record");
    push_number(line, number);
    line.push_str(" ");
    line.push_str(fault);
    line.push_str("\n");
}

// A space and a number.
fn push_number<I: Integer>(line: &mut ArrayString<LONGEST>, number: I)
    requires { length line.old.bytes + 1 + I.MAX_STR_LEN ≤ LONGEST }
    ensures bytes { line.new.bytes ≡ line.old.bytes ++ 32 ∷ I.text number }
    ensures len { length line.new.bytes ≤ length line.old.bytes + 1 + I.MAX_STR_LEN }
{
    line.push_str(" ");
    let mut buffer = Buffer::new();
    line.push_str(buffer.format(number));
}

// The line of a row.
fn push_row<const D: usize>(line: &mut ArrayString<LONGEST>, row: &Row<D>)
    requires dims { D ≤ 16 }
    requires empty { line.old.bytes ≡ [] }
    ensures { line.new.bytes ≡ line_of (codes "row" ∷ row_words row.now) }
{
    line.push_str("row");
    push_numbers(line, row);
}

// The line of a row with its distance.
fn push_hit<const D: usize>(line: &mut ArrayString<LONGEST>, distance: u128, row: &Row<D>)
    requires dims { D ≤ 16 }
    requires empty { line.old.bytes ≡ [] }
    ensures { line.new.bytes ≡ line_of (codes "hit" ∷ decimal distance ∷ row_words row.now) }
{
    line.push_str("hit");
    push_number(line, distance);
    push_numbers(line, row);
}

// The line of two rows.
fn push_pair<const D: usize>(line: &mut ArrayString<LONGEST>, first: &Row<D>, second: &Row<D>)
    requires dims { D ≤ 16 }
    requires empty { line.old.bytes ≡ [] }
    ensures { line.new.bytes ≡ line_of (codes "pair" ∷ row_words first.now ++ row_words second.now) }
{
    line.push_str("pair");
    push_row_numbers(line, first);
    push_row_numbers(line, second);
    line.push_str("\n");
}

// The numbers of a row, with a space before each, and a line feed.
fn push_numbers<const D: usize>(line: &mut ArrayString<LONGEST>, row: &Row<D>)
    requires dims { D ≤ 16 }
    requires room { length line.old.bytes ≤ 3 + 40 }
    ensures { line.new.bytes ≡ line.old.bytes ++ numbers_line row.now }
{
    push_row_numbers(line, row);
    line.push_str("\n");
}

// The numbers of a row, with a space before each.
fn push_row_numbers<const D: usize>(line: &mut ArrayString<LONGEST>, row: &Row<D>)
    requires dims { D ≤ 16 }
    requires room { length line.old.bytes ≤ 4 + 17 * 21 }
    ensures bytes { line.new.bytes ≡ line.old.bytes ++ row_numbers row.now }
    ensures len { length line.new.bytes ≤ length line.old.bytes + 17 * 21 }
{
    for coordinate in row.point.as_slice() {
        push_number(line, *coordinate);
    }
    push_number(line, row.value);
}

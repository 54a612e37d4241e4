//! A run over a source: its bytes are cut into lines, and each line is answered.
ghost use Rattle.std.specs.Prelude.{◌≡◌, ◌≤◌, ◌<◌, ◌+◌, ◌^◌, [], ◌||◌, false, IfOk, IfErr, length};
ghost use Rattle.std.specs.Io.KnownBytes.{ReadConsumes, IsAtEnd};
ghost use Rattle.ph_io.specs.Causes.{HasCause, Rose};
ghost use Rattle.ph_io.specs.Giving.{Given};
ghost use Rattle.ph_specs.specs.ProgramNames.{reply_text as text_of};
ghost use Rattle.ph_script.specs.Meaning.{reply_of, bad_reply as reply_to};
ghost use Rattle.ph_commands.specs.Telling.{is_refusal, refuses, StopHasCause};
ghost use Rattle.ph_io.specs.Writing.{WritesFront};
ghost use Rattle.ph_slot.specs.Desks.{SameDesk};
ghost use Rattle.ph_engine.specs.Told.{standing_at};
ghost use Rattle.ph_engine.specs.Serving.{ServesLine, ServesText, ServesPiece, ServesEnd, ServesScript};
ghost use Rattle.ph_engine.specs.Showing.{IsShort};
ghost use Rattle.ph_engine.specs.Statuses.{HasCauses, stop_status, read_status as status_of};
ghost use Rattle.ph_commands.specs.Told.{taken_by};

use crate::engine::Engine;
use crate::status::Status;
use ph_commands::{Answer, Stop, say};
use ph_io::{Failed, Files, Sink, Source};
use ph_script::{Bad, CoordBuffer, Line, Lines, Reply, Text, read_command, read_plain_command};
use ph_slot::Desk;
use std::sync::ledger::Ledger;

const PIECE_BYTES: usize = 4096;

// Runs a script of at most so many bytes. Both buffers are taken before the first read.
pub(crate) fn run<S: Source, O: Sink, F: Files, V: Ledger, C: Ledger>(
    src: &mut S,
    desk: &mut Desk<'_, O, F, V, C>,
    eng: &mut Engine,
) -> Status
    requires script { desk.old.limits.now.script_bytes < 2 ^ 63 }
    requires file { desk.old.limits.now.file_bytes < 2 ^ 63 }
    ensures outcome { ServesScript desk.old.limits.now.file_bytes desk.old.limits.now.script_bytes
        (S.left src.old) (standing_at O.Sink F.Files desk.old eng.old)
        (S.left src.new) (standing_at O.Sink F.Files desk.new eng.new)
        result }
    ensures filings { F.faults desk.old.files.now ≤ F.faults desk.new.files.now }
    ensures begun { F.is_begun desk.old.files.now ≡ false → F.is_begun desk.new.files.now ≡ false }
    ensures same { SameDesk desk.old desk.new }
    ensures causes { HasCauses (S.faults src.old) (S.faults src.new) (O.faults desk.old.out.now) (O.faults desk.new.out.now) result }
{
    let Ok(mut lines) = Lines::new(desk.alloc) else {
        return Status::Memory;
    };
    let Ok(mut piece) = vec![in desk.alloc; 0u8; PIECE_BYTES] else {
        return Status::Memory;
    };
    run_pieces(src, desk, eng, &mut lines, piece.as_mut_slice())
}

fn run_pieces<S: Source, O: Sink, F: Files, V: Ledger, C: Ledger>(
    src: &mut S,
    desk: &mut Desk<'_, O, F, V, C>,
    eng: &mut Engine,
    lines: &mut Lines,
    piece: &mut [u8],
) -> Status
    requires script { desk.old.limits.now.script_bytes < 2 ^ 63 }
    requires file { desk.old.limits.now.file_bytes < 2 ^ 63 }
    requires lines { lines.old ≡ [] }
    requires room { 0 < length piece.old }
    ensures outcome { ServesScript desk.old.limits.now.file_bytes desk.old.limits.now.script_bytes
        (S.left src.old) (standing_at O.Sink F.Files desk.old eng.old)
        (S.left src.new) (standing_at O.Sink F.Files desk.new eng.new)
        result }
    ensures filings { F.faults desk.old.files.now ≤ F.faults desk.new.files.now }
    ensures begun { F.is_begun desk.old.files.now ≡ false → F.is_begun desk.new.files.now ≡ false }
    ensures same { SameDesk desk.old desk.new }
    ensures causes { HasCauses (S.faults src.old) (S.faults src.new) (O.faults desk.old.out.now) (O.faults desk.new.out.now) result }
{
    let most = desk.limits.script_bytes;
    let mut taken = 0u64;
    let mut refused = false;
    'pieces: loop {
        let Ok(count) = fill(src, piece, most + 1 - taken) else {
            return Status::ReadFault;
        };
        if count == 0 {
            return finish(desk, eng, lines, refused);
        }
        let fresh = (most - taken).min(count as u64) as usize;
        match feed(desk, eng, lines, &piece[..fresh]) {
            Ok(some) => refused = either(refused, some),
            Err(stop) => return stopped(stop),
        }
        if fresh < count {
            return Status::TooLong;
        }
        taken += count as u64;
    }
}

// Reads at most `most` bytes to the front of a piece.
fn fill<S: Source>(src: &mut S, piece: &mut [u8], most: u64) -> Result<usize, Failed>
    requires most { 0 < most }
    requires room { 0 < length piece.old }
    ensures room { IfOk result (λ n. n ≤ length piece.new) }
    ensures most { IfOk result (λ n. n ≤ most) }
    ensures bytes { ReadConsumes (S.left src.old) (S.left src.new) result piece.new }
    ensures end { IfOk result (λ n. n ≡ 0 → IsAtEnd (S.left src.new)) }
    ensures cause { HasCause (S.faults src.old) (S.faults src.new) result }
{
    let mut room = piece.len();
    if most < room as u64 {
        room = most as usize;
    }
    src.read(&mut piece[..room])
}

// Answers the lines that a piece ends, and tells whether one was refused.
fn feed<O: Sink, F: Files, V: Ledger, C: Ledger>(
    desk: &mut Desk<'_, O, F, V, C>,
    eng: &mut Engine,
    lines: &mut Lines,
    piece: &[u8],
) -> Result<bool, Stop>
    requires { desk.old.limits.now.file_bytes < 2 ^ 63 }
    ensures fed { ServesPiece desk.old.limits.now.file_bytes
        (standing_at O.Sink F.Files desk.old eng.old) lines.old piece.now
        (standing_at O.Sink F.Files desk.new eng.new) lines.new result }
    ensures filings { F.faults desk.old.files.now ≤ F.faults desk.new.files.now }
    ensures begun { F.is_begun desk.old.files.now ≡ false → F.is_begun desk.new.files.now ≡ false }
    ensures same { SameDesk desk.old desk.new }
    ensures cause { StopHasCause (O.faults desk.old.out.now) (O.faults desk.new.out.now) result }
{
    let mut refused = false;
    let mut at = 0;
    let mut coords = CoordBuffer::new();
    'lines: while let Some(line) = lines.next_line(piece, &mut at) {
        match answer(desk, eng, &mut coords, line) {
            Ok(some) => refused = either(refused, some),
            Err(stop) => return Err(stop),
        }
    }
    Ok(refused)
}

// Answers the line that the end of the script ends, if there is one.
fn finish<O: Sink, F: Files, V: Ledger, C: Ledger>(
    desk: &mut Desk<'_, O, F, V, C>,
    eng: &mut Engine,
    lines: &mut Lines,
    refused: bool,
) -> Status
    requires { desk.old.limits.now.file_bytes < 2 ^ 63 }
    ensures ends { ServesEnd desk.old.limits.now.file_bytes
        (standing_at O.Sink F.Files desk.old eng.old) lines.old refused
        (standing_at O.Sink F.Files desk.new eng.new) result }
    ensures filings { F.faults desk.old.files.now ≤ F.faults desk.new.files.now }
    ensures begun { F.is_begun desk.old.files.now ≡ false → F.is_begun desk.new.files.now ≡ false }
    ensures same { SameDesk desk.old desk.new }
    ensures writes { O.faults desk.old.out.now ≤ O.faults desk.new.out.now }
    ensures cause { result ≡ Status.WriteFault → Rose (O.faults desk.old.out.now) (O.faults desk.new.out.now) }
    ensures read { (result ≡ Status.ReadFault → ⊥) × (result ≡ Status.Usage → ⊥) }
{
    let Some(line) = lines.last() else {
        return read_status(refused);
    };
    match answer(desk, eng, &mut CoordBuffer::new(), line) {
        Ok(last) => read_status(either(refused, last)),
        Err(stop) => stopped(stop),
    }
}

// Answers a line, and tells whether it was refused.
fn answer<O: Sink, F: Files, V: Ledger, C: Ledger>(
    desk: &mut Desk<'_, O, F, V, C>,
    eng: &mut Engine,
    coords: &mut CoordBuffer,
    line: Line<'_>,
) -> Result<bool, Stop>
    requires short { IsShort line }
    requires file { desk.old.limits.now.file_bytes < 2 ^ 63 }
    ensures answered { ServesLine desk.old.limits.now.file_bytes
        (standing_at O.Sink F.Files desk.old eng.old) line.entry
        (standing_at O.Sink F.Files desk.new eng.new) result }
    ensures filings { F.faults desk.old.files.now ≤ F.faults desk.new.files.now }
    ensures begun { F.is_begun desk.old.files.now ≡ false → F.is_begun desk.new.files.now ≡ false }
    ensures same { SameDesk desk.old desk.new }
    ensures cause { StopHasCause (O.faults desk.old.out.now) (O.faults desk.new.out.now) result }
{
    let Line::Text(bytes) = line else {
        return refuse(desk.out, &mut desk.text, &Reply::ErrorLong);
    };
    match read_plain_command(bytes, eng.dims(), coords) {
        Some(command) => match eng.exec(&command, desk) {
            Ok(answer) => Ok(is_refused(answer)),
            Err(stop) => Err(stop),
        },
        None => answer_other(desk, eng, coords, bytes),
    }
}

// The same of a text that is no plain line.
#[inline(never)]
fn answer_other<O: Sink, F: Files, V: Ledger, C: Ledger>(
    desk: &mut Desk<'_, O, F, V, C>,
    eng: &mut Engine,
    coords: &mut CoordBuffer,
    bytes: &[u8],
) -> Result<bool, Stop>
    requires short { length bytes.now ≤ 4096 }
    requires file { desk.old.limits.now.file_bytes < 2 ^ 63 }
    ensures answered { ServesText desk.old.limits.now.file_bytes
        (standing_at O.Sink F.Files desk.old eng.old) bytes.now
        (standing_at O.Sink F.Files desk.new eng.new) result }
    ensures filings { F.faults desk.old.files.now ≤ F.faults desk.new.files.now }
    ensures begun { F.is_begun desk.old.files.now ≡ false → F.is_begun desk.new.files.now ≡ false }
    ensures same { SameDesk desk.old desk.new }
    ensures cause { StopHasCause (O.faults desk.old.out.now) (O.faults desk.new.out.now) result }
{
    match read_command(bytes, eng.dims(), coords) {
        Ok(None) => Ok(false),
        Ok(Some(command)) => match eng.exec(&command, desk) {
            Ok(answer) => Ok(is_refused(answer)),
            Err(stop) => Err(stop),
        },
        Err(bad) => refuse(desk.out, &mut desk.text, &bad_reply(bad)),
    }
}

fn bad_reply(bad: Bad) -> Reply
    ensures { reply_of result ≡ reply_to bad }
{
    match bad {
        Bad::Word => Reply::ErrorWord,
        Bad::Count => Reply::ErrorCount,
        Bad::Number => Reply::ErrorNumber,
        Bad::Name => Reply::ErrorName,
    }
}

// Refuses a line.
fn refuse<O: Sink>(out: &mut O, text: &mut Text, reply: &Reply) -> Result<bool, Stop>
    ensures told { IfOk result (λ refused.
        Given (taken_by O.Sink out.old) (taken_by O.Sink out.new) (text_of (reply_of reply.now))
        × (refused ≡ is_refusal (text_of (reply_of reply.now)))) }
    ensures front { IfErr result (λ stop.
        (stop ≡ Stop.WriteFault)
        × WritesFront (taken_by O.Sink out.old) (taken_by O.Sink out.new) (text_of (reply_of reply.now))) }
    ensures cause { StopHasCause (O.faults out.old) (O.faults out.new) result }
{
    match say(out, text, reply) {
        Ok(answer) => Ok(is_refused(answer)),
        Err(stop) => Err(stop),
    }
}

fn is_refused(answer: Answer) -> bool
    ensures { result ≡ refuses answer }
{
    match answer {
        Answer::Good => false,
        Answer::Refused => true,
    }
}

fn either(a: bool, b: bool) -> bool
    ensures { result ≡ (a || b) }
{
    a || b
}

fn read_status(refused: bool) -> Status
    ensures { result ≡ status_of refused }
{
    if refused {
        Status::Refused
    } else {
        Status::Clean
    }
}

fn stopped(stop: Stop) -> Status
    ensures { result ≡ stop_status stop }
{
    match stop {
        Stop::WriteFault => Status::WriteFault,
        Stop::NoMemory => Status::Memory,
    }
}

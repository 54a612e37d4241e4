//! What any sources, sinks and files are to answer.
ghost use Rattle.std.specs.Prelude.{◌≤◌, length};

mod claims;
mod dir_files;
mod files;
mod gathered;
mod sinks;
mod sources;

use claims::holds;
use ph_io::{Failed, FetchFault, Files, Sink, Source};
use std::process::Abort;

// A read is answered so, and these bytes stand behind it.
fn check_read<S: Source>(
    rt: &impl Abort,
    source: &mut S,
    into: &mut [u8],
    answer: Result<usize, Failed>,
    stands: &[u8],
) {
    assert!(rt; !into.is_empty());
    holds(rt, source.read(into) == answer);
    holds(rt, *into == *stands);
}

fn check_write<S: Sink>(
    rt: &impl Abort,
    sink: &mut S,
    piece: &[u8],
    answer: Result<usize, Failed>,
) {
    holds(rt, sink.write(piece) == answer);
}

// A fetch of at most so many bytes of a file gives these, or is refused so.
fn check_fetch<F: Files>(
    rt: &impl Abort,
    files: &mut F,
    (name, most): (&str, u64),
    into: &mut Vec<u8>,
    wanted: Result<&[u8], FetchFault>,
) {
    assert!(rt; name.len() <= 255);
    let answer = files.fetch(name, most, into);
    match wanted {
        Ok(bytes) => holds(rt, answer == Ok(()) && into.as_slice() == bytes),
        Err(fault) => holds(rt, answer == Err(fault)),
    }
}

fn save<F: Files>(files: &mut F, name: &str, piece: &[u8]) -> Result<(), Failed>
    requires { length name.now ≤ 255 }
{
    files.begin(name)?;
    files.append(piece)?;
    files.append(piece)?;
    files.finish()
}

// A file that has a piece twice is saved, or that is refused.
fn check_save<F: Files>(
    rt: &impl Abort,
    files: &mut F,
    name: &str,
    piece: &[u8],
    answer: Result<(), Failed>,
) {
    assert!(rt; name.len() <= 255);
    holds(rt, save(files, name, piece) == answer);
}

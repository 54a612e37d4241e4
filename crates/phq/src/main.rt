//! phq: answers a script of commands on points.
#![tactic(auto)]

ghost use Rattle.std.specs.Prelude.{◌≡◌, ◌<◌};

use ph_edge::{DirFiles, Gathered, ReadAfter, Replies, StdSink, StdSource};
use ph_engine::{Engine, Limits, Status, top};
use ph_steps::Steps;
use std::marker::Brand;
use std::process::ExitCode;
use std::sync::ledger::{Blank, Ledger};
use std::{env, mem};

const LIMITS: Limits = Limits {
    script_bytes: 1 << 32,
    file_bytes: 1 << 30,
};

// The status where the words of the command line can't be had. `top` never answers it.
const NO_WORDS: u8 = 7;

// So many bytes of replies are gathered before they are written.
const GATHERED_BYTES: usize = 1 << 16;

// The words of the command line behind the program's name, if they can be had.
fn words_of(rt: &HostRuntime) -> Option<Vec<String>> {
    let Ok(mut args) = env::args(rt) else {
        return None;
    };
    let _program = args.next();
    let words: Result<Vec<String>, _> = args.collect(rt.alloc());
    words.ok()
}

fn main(rt: HostRuntime) -> ExitCode {
    serve::<Brand, Brand>(rt, Blank::new(1), Blank::new(1))
}

fn serve<V: Ledger, C: Ledger>(rt: HostRuntime, visits: Blank, changes: Blank) -> ExitCode
    requires visits { (visits.name ≡ V.name) × (visits.parts ≡ V.parts) × (0 < visits.parts) }
    requires changes { (changes.name ≡ C.name) × (changes.parts ≡ C.parts) × (0 < changes.parts) }
{
    let Some(words) = words_of(&rt) else {
        return ExitCode::from(NO_WORDS);
    };
    let Ok(replies) = Gathered::new(rt.alloc(), GATHERED_BYTES, rt.stdout()) else {
        return ExitCode::from(Status::Memory as u8);
    };
    let Ok(mut files) = DirFiles::new(rt.alloc(), &rt, Replies::new(&replies)) else {
        return ExitCode::from(Status::Memory as u8);
    };
    let mut visits: Steps<V> = Steps::new(visits);
    let mut changes: Steps<C> = Steps::new(changes);
    let mut engine = Engine::new(rt.alloc());
    let status = top(
        rt.alloc(),
        words.as_slice(),
        &mut StdSource::new(ReadAfter::new(rt.stdin(), &replies)),
        &mut StdSink::new(Replies::new(&replies)),
        &mut files,
        &mut engine,
        &LIMITS,
        &mut visits,
        &mut changes,
    );
    // The memory of the tables goes back with the process, all at once.
    mem::forget(engine);
    // The replies behind the last read.
    if replies.flush().is_err() {
        return ExitCode::from(Status::WriteFault as u8);
    }
    ExitCode::from(status as u8)
}

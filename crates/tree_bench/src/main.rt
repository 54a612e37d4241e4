//! Puts many points in a tree, looks them up and asks for the nearest of others, for bench/tree to time.
#![tactic(auto)]

ghost use Rattle.std.specs.Prelude.{◌≡◌, ◌<◌};

mod points;
mod request;
mod work;

use ph_steps::Steps;
use request::{Request, read_request};
use std::env;
use std::marker::Brand;
use std::process::ExitCode;
use std::sync::ledger::{Blank, Ledger};
use work::do_request;

const NOT_PRINTED: u8 = 1;

const WRONG_WORDS: u8 = 2;

const NO_MEMORY: u8 = 3;

fn main(rt: HostRuntime) -> ExitCode {
    match requested(&rt) {
        Some(request) => serve::<Brand, Brand>(&rt, &request, Blank::new(1), Blank::new(1)),
        None => {
            let _ = eprintln!(rt; "usage: tree_bench uniform|clustered COUNT GETS ASKED N");
            ExitCode::from(WRONG_WORDS)
        }
    }
}

// What the words of the command line ask for, if they can be had and are right.
fn requested(rt: &HostRuntime) -> Option<Request> {
    let words: Vec<String> = env::args(rt).ok()?.collect(rt.alloc()).ok()?;
    read_request(words.get(1..)?)
}

fn serve<V: Ledger, C: Ledger>(
    rt: &HostRuntime,
    request: &Request,
    visits: Blank,
    changes: Blank,
) -> ExitCode
    requires visits { (visits.name ≡ V.name) × (visits.parts ≡ V.parts) × (0 < visits.parts) }
    requires changes { (changes.name ≡ C.name) × (changes.parts ≡ C.parts) × (0 < changes.parts) }
{
    let mut visits: Steps<V> = Steps::new(visits);
    let mut changes: Steps<C> = Steps::new(changes);
    match do_request(rt.alloc(), request, &mut visits, &mut changes) {
        Ok(done) => {
            let printed = println!(rt;
                "rows {} found {} near {}",
                done.rows, done.found, done.near
            );
            match printed {
                Ok(()) => ExitCode::from(0),
                Err(_) => ExitCode::from(NOT_PRINTED),
            }
        }
        Err(_) => ExitCode::from(NO_MEMORY),
    }
}

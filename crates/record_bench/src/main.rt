//! Reads or writes packed records again and again, for bench/records to time.
#![tactic(auto)]

mod layouts;
mod points;
mod records;
mod request;
mod work;

use layouts::{Cube, Linear};
use ph_bits::NoMemory;
use ph_coord::Dim;
use request::{Form, Request, read_request};
use std::alloc::Global;
use std::env;
use std::process::ExitCode;
use work::do_request;

const NOT_PRINTED: u8 = 1;

const WRONG_WORDS: u8 = 2;

const NO_MEMORY: u8 = 3;

fn main(rt: HostRuntime) -> ExitCode {
    match requested(&rt) {
        Some(request) => serve(&rt, &request),
        None => {
            let _ = eprintln!(rt;
                "usage: record_bench linear|cube nothing|find|entry|next|write 2|3|8 ENTRIES LEVEL RECORDS CALLS"
            );
            ExitCode::from(WRONG_WORDS)
        }
    }
}

// What the words of the command line ask for, if they can be had and are right.
fn requested(rt: &HostRuntime) -> Option<Request> {
    let words: Vec<String> = env::args(rt).ok()?.collect(rt.alloc()).ok()?;
    read_request(words.get(1..)?)
}

fn serve(rt: &HostRuntime, request: &Request) -> ExitCode {
    match at_dims(rt.alloc(), request) {
        Ok(sum) => match println!(rt; "sum {sum}") {
            Ok(()) => ExitCode::from(0),
            Err(_) => ExitCode::from(NOT_PRINTED),
        },
        Err(_) => ExitCode::from(NO_MEMORY),
    }
}

fn at_dims(alloc: Global, request: &Request) -> Result<u64, NoMemory> {
    match (request.form, request.dims) {
        (Form::Linear, 2) => do_request::<Dim<2>, Linear>(alloc, request),
        (Form::Linear, 3) => do_request::<Dim<3>, Linear>(alloc, request),
        (Form::Linear, _) => do_request::<Dim<8>, Linear>(alloc, request),
        (Form::Cube, 2) => do_request::<Dim<2>, Cube>(alloc, request),
        (Form::Cube, 3) => do_request::<Dim<3>, Cube>(alloc, request),
        (Form::Cube, _) => do_request::<Dim<8>, Cube>(alloc, request),
    }
}

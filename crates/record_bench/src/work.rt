//! The calls, each of which is chosen by what the one before it gave.

ghost use Rattle.std.specs.Prelude.{◌<◌, ◌≤◌, ◌^◌};

use crate::layouts::Layout;
use crate::points::Points;
use crate::records::{Record, room_for};
use crate::request::{Call, Request};
use ph_bits::{NoMemory, Words};
use ph_coord::Dims;
use std::alloc::Global;

const GOLD: u64 = 0x9E37_79B9_7F4A_7C15;

/// Makes the records of a request and does its calls. Gives a number made of all that was read.
pub fn do_request<P: Dims, L: Layout<P>>(alloc: Global, request: &Request) -> Result<u64, NoMemory>
    requires some { 1 ≤ P.D }
    requires few { P.D ≤ 16 }
{
    if let Call::Write = request.call {
        return write_often::<P, L>(alloc, request);
    }
    let mut records: Vec<Record<P, L>> = Vec::new(alloc);
    for k in 0..request.records {
        let points: Points<P> = Points::new(request.level, request.entries, mixed(k as u64));
        records.push(Record::new(alloc, &points)?)?;
    }
    let points: Points<P> = Points::new(request.level, request.entries, 0);
    Ok(read_often(&records, request, points.step))
}

// Reads of records and entries that look random.
fn read_often<P: Dims, L: Layout<P>>(
    records: &[Record<P, L>],
    request: &Request,
    step: u32,
) -> u64 {
    let mut number = 0;
    for _ in 0..request.calls {
        number = mixed(number);
        let chosen = below(number >> 32, request.records);
        let Some(record) = records.get(chosen as usize) else {
            return number;
        };
        let i = below(number % (1 << 32), request.entries);
        let addr = i.wrapping_mul(step);
        number ^= match request.call {
            Call::Find => record.find(addr),
            Call::Entry => record.entry(i),
            Call::Next => record.next(addr),
            _ => addr as u64,
        };
    }
    number
}

// Writes records into one block, each over the one before it.
fn write_often<P: Dims, L: Layout<P>>(alloc: Global, request: &Request) -> Result<u64, NoMemory>
    requires some { 1 ≤ P.D }
    requires few { P.D ≤ 16 }
{
    let mut number = 0;
    let mut points: Points<P> = Points::new(request.level, request.entries, number);
    let mut words = Words::with_room(alloc, room_for::<P, L>(&points))?;
    for _ in 0..request.calls {
        number = mixed(number);
        points.refill(number);
        L::write(&mut words, &points);
        if words.len() > 1 {
            number ^= words.get(1);
        }
    }
    Ok(number)
}

// A number that looks random.
#[inline(always)]
fn mixed(number: u64) -> u64 {
    let x = number.wrapping_add(GOLD);
    let y = (x ^ (x >> 31)).wrapping_mul(GOLD);
    y ^ (y >> 29)
}

// A number below `limit` by 32 digits that look random, and 0 below 0.
#[inline(always)]
fn below(number: u64, limit: u32) -> u32
    requires { number < 2 ^ 32 }
{
    ((number * limit as u64) >> 32) as u32
}

//! What sources give.

use super::check_read;
use ph_edge::StdSource;
use ph_io::{CleanSource, Failed, MemorySource};
use std::io::{Error, ErrorKind, Read, Result};

#[test]
fn clean_source_gives_all_its_bytes(rt: HostRuntime) {
    let mut source = CleanSource::new(vec![in rt.alloc(); 1u8, 2, 3].expect(&rt, "memory"), 9);
    let mut into = [0u8; 2];
    for (answer, stands) in [(Ok(2), [1, 2]), (Ok(1), [3, 2]), (Ok(0), [3, 2])] {
        check_read(&rt, &mut source, &mut into, answer, &stands);
    }
}

#[test]
fn memory_source_gives_pieces_and_fails_where_told(rt: HostRuntime) {
    let bytes = vec![in rt.alloc(); 1u8, 2, 3, 4, 5].expect(&rt, "memory");
    let fails = vec![in rt.alloc(); 4u64, 2].expect(&rt, "memory");
    let mut source = MemorySource::new(bytes, 2, fails);
    let mut into = [0u8; 3];
    for (answer, stands) in [
        (Ok(2), [1, 2, 0]),
        (Err(Failed), [1, 2, 0]),
        (Ok(2), [3, 4, 0]),
        (Err(Failed), [3, 4, 0]),
        (Ok(1), [5, 4, 0]),
        (Ok(0), [5, 4, 0]),
    ] {
        check_read(&rt, &mut source, &mut into, answer, &stands);
    }
}

#[test]
fn std_source_gives_what_its_reader_has(rt: HostRuntime) {
    let mut source = StdSource::new(b"abcdef".as_slice());
    let mut into = [0u8; 4];
    for (answer, stands) in [(Ok(4), *b"abcd"), (Ok(2), *b"efcd"), (Ok(0), *b"efcd")] {
        check_read(&rt, &mut source, &mut into, answer, &stands);
    }
}

#[derive(Drop)]
struct Broken;

impl Read for Broken {
    fn read(&mut self, _into: &mut [u8]) -> Result<usize> {
        Err(Error::from(ErrorKind::BrokenPipe))
    }
}

#[test]
fn std_source_fails_where_its_reader_does(rt: HostRuntime) {
    let mut source = StdSource::new(Broken);
    let mut into = *b"efcd";
    for _ in 0..2 {
        check_read(&rt, &mut source, &mut into, Err(Failed), b"efcd");
    }
}

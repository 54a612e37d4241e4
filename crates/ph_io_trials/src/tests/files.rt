//! Files that keep nothing, files in memory, and the names of faults.

use super::claims::holds;
use super::{check_fetch, check_save};
use ph_io::{CleanFiles, Failed, FetchFault, Files, MemoryFiles};
use std::alloc::Global;
use std::process::Abort;

const SAVED: &[u8] = b"xyxy";

// Files in memory, with room for so many of so many bytes each.
fn with_room(rt: &impl Abort, alloc: Global, files: usize, room: usize) -> MemoryFiles {
    MemoryFiles::new(alloc, files, room, Vec::new(alloc)).expect(rt, "memory")
}

// A file of two pieces that is not finished.
fn check_draft<F: Files>(rt: &impl Abort, files: &mut F, name: &str) {
    assert!(rt; name.len() <= 255);
    assert!(rt; files.begin(name) == Ok(()));
    assert!(rt; files.append(b"xy") == Ok(()));
    holds(rt, files.append(b"xy") == Ok(()));
}

fn check_stored(rt: &impl Abort, files: &MemoryFiles, name: &str, wanted: Option<&[u8]>) {
    holds(rt, files.get(name) == wanted);
}

fn check_message(rt: &impl Abort, alloc: Global, fault: FetchFault, message: &str) {
    let text = format!(in alloc; "{fault}").expect(rt, "memory");
    holds(rt, text.as_str() == message);
}

#[test]
fn faults_have_their_names(rt: HostRuntime) {
    for (fault, message) in [
        (FetchFault::Failed, "Failed"),
        (FetchFault::Absent, "Absent"),
        (FetchFault::Over, "Over"),
        (FetchFault::NoMemory, "NoMemory"),
    ] {
        check_message(&rt, rt.alloc(), fault, message);
    }
}

#[test]
fn clean_files_keep_nothing(rt: HostRuntime) {
    let mut files = CleanFiles::new();
    let mut into = Vec::new(rt.alloc());
    check_save(&rt, &mut files, "a", b"12", Ok(()));
    check_fetch(
        &rt,
        &mut files,
        ("a", 9),
        &mut into,
        Err(FetchFault::Absent),
    );
}

#[test]
fn memory_files_save_and_fetch(rt: HostRuntime) {
    let mut files = with_room(&rt, rt.alloc(), 2, 4);
    let mut into = Vec::new(rt.alloc());
    holds(&rt, files.preset("b", b"123"));
    for (most, wanted) in [
        (2, Err(FetchFault::Over)),
        (3, Ok(b"123".as_slice())),
        (4, Ok(b"123")),
    ] {
        check_fetch(&rt, &mut files, ("b", most), &mut into, wanted);
    }
    check_draft(&rt, &mut files, "a");
    check_stored(&rt, &files, "a", None);
    check_fetch(
        &rt,
        &mut files,
        ("a", 9),
        &mut into,
        Err(FetchFault::Absent),
    );
    for name in ["a", "b"] {
        check_save(&rt, &mut files, name, b"xy", Ok(()));
        check_stored(&rt, &files, name, Some(SAVED));
        check_fetch(&rt, &mut files, (name, 4), &mut into, Ok(SAVED));
    }
}

#[test]
fn each_call_of_memory_files_fails_in_turn(rt: HostRuntime) {
    for turn in 1..=5 {
        let fails = vec![in rt.alloc(); turn].expect(&rt, "memory");
        let mut files = MemoryFiles::new(rt.alloc(), 1, 4, fails).expect(&rt, "memory");
        let mut into = Vec::new(rt.alloc());
        holds(&rt, files.preset("a", b"old"));
        if turn < 5 {
            check_save(&rt, &mut files, "a", b"xy", Err(Failed));
            check_stored(&rt, &files, "a", Some(b"old"));
            check_save(&rt, &mut files, "a", b"xy", Ok(()));
        } else {
            check_save(&rt, &mut files, "a", b"xy", Ok(()));
            check_fetch(
                &rt,
                &mut files,
                ("a", 4),
                &mut into,
                Err(FetchFault::Failed),
            );
        }
        check_fetch(&rt, &mut files, ("a", 4), &mut into, Ok(SAVED));
    }
}

#[test]
fn memory_files_have_room_for_so_many_bytes(rt: HostRuntime) {
    let mut files = with_room(&rt, rt.alloc(), 2, 3);
    holds(&rt, !files.preset("a", b"1234"));
    holds(&rt, files.preset("a", b"123"));
    check_save(&rt, &mut files, "a", b"xy", Err(Failed));
    check_stored(&rt, &files, "a", Some(b"123"));
}

#[test]
fn memory_files_have_room_for_so_many_names(rt: HostRuntime) {
    let mut files = with_room(&rt, rt.alloc(), 2, 4);
    check_save(&rt, &mut files, "c", b"xy", Ok(()));
    holds(&rt, files.preset("a", b"1"));
    check_save(&rt, &mut files, "b", b"xy", Err(Failed));
    holds(&rt, !files.preset("b", b"2"));
    check_stored(&rt, &files, "b", None);
    check_save(&rt, &mut files, "a", b"xy", Ok(()));
    holds(&rt, files.preset("c", b"3"));
    check_stored(&rt, &files, "a", Some(SAVED));
    check_stored(&rt, &files, "c", Some(b"3"));
}

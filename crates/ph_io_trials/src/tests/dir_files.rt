//! Files of a file system, in the folder that the tests run in.

use super::claims::holds;
use super::{check_fetch, check_save};
use ph_edge::DirFiles;
use ph_io::{Failed, FetchFault, Files};
use std::alloc::Global;
use std::os::unix::fs::symlink;
use std::process::Abort;
use std::{fs, io, rt};

// What is done in the folder, and what is to be found there.
#[derive(Clone, Copy)]
enum Step<'t> {
    // A file, with its bytes.
    MakeFile(&'t str, &'t str),
    MakeFolder(&'t str),
    // What a link leads to, and the link.
    MakeLink(&'t str, &'t str),
    RemoveFile(&'t str),
    RemoveFolder(&'t str),
    Exists(&'t str, bool),
    Begin(&'t str, Result<(), Failed>),
    Save(&'t str, &'t [u8], Result<(), Failed>),
    Fetch(&'t str, u64, Result<&'t [u8], FetchFault>),
}

fn check_exists<R: rt::Files + Abort>(rt: &R, name: &str, wanted: bool) {
    holds(rt, fs::exists(rt, name).ok() == Some(wanted));
}

fn check_begin<F: Files>(rt: &impl Abort, files: &mut F, name: &str, answer: Result<(), Failed>) {
    assert!(rt; name.len() <= 255);
    holds(rt, files.begin(name) == answer);
}

fn check_steps<R: rt::Files + Abort>(rt: &R, alloc: Global, steps: &[Step<'_>]) {
    let mut files = DirFiles::new(alloc, rt, io::sink()).expect(rt, "memory");
    let mut into = Vec::new(alloc);
    for step in steps {
        match *step {
            Step::MakeFile(name, bytes) => fs::write(rt, name, bytes).expect(rt, "write"),
            Step::MakeFolder(name) => fs::create_dir(rt, name).expect(rt, "create_dir"),
            Step::MakeLink(to, name) => symlink(rt, to, name).expect(rt, "symlink"),
            Step::RemoveFile(name) => fs::remove_file(rt, name).expect(rt, "remove_file"),
            Step::RemoveFolder(name) => fs::remove_dir(rt, name).expect(rt, "remove_dir"),
            Step::Exists(name, wanted) => check_exists(rt, name, wanted),
            Step::Begin(name, answer) => check_begin(rt, &mut files, name, answer),
            Step::Save(name, piece, answer) => check_save(rt, &mut files, name, piece, answer),
            Step::Fetch(name, most, wanted) => {
                check_fetch(rt, &mut files, (name, most), &mut into, wanted)
            }
        }
    }
}

#[test]
fn saves_and_fetches(rt: HostRuntime) {
    let steps = [
        Step::Fetch("e.pht", 9, Err(FetchFault::Failed)),
        Step::Save("e.pht", b"PHT1", Ok(())),
        Step::Exists("e.pht.part", false),
        Step::Fetch("e.pht", 9, Ok(b"PHT1PHT1")),
        Step::Fetch("e.pht", 7, Err(FetchFault::Over)),
        Step::Fetch("e.pht", 8, Ok(b"PHT1PHT1")),
        Step::Save("e.pht", b"ab", Ok(())),
        Step::Fetch("e.pht", 8, Ok(b"abab")),
        Step::RemoveFile("e.pht"),
    ];
    check_steps(&rt, rt.alloc(), &steps);
}

// No file is begun in place of a link, also where that leads to a file, nor in place of a folder.
#[test]
fn keeps_the_former_file_where_a_save_fails(rt: HostRuntime) {
    let steps = [
        Step::MakeFile("former.pht", "old"),
        Step::MakeLink("former.pht", "former.pht.part"),
        Step::Save("former.pht", b"ab", Err(Failed)),
        Step::Exists("former.pht.part", true),
        Step::RemoveFile("former.pht.part"),
        Step::MakeFolder("former.pht.part"),
        Step::Save("former.pht", b"ab", Err(Failed)),
        Step::Fetch("former.pht", 3, Ok(b"old")),
        Step::RemoveFolder("former.pht.part"),
        Step::RemoveFile("former.pht"),
    ];
    check_steps(&rt, rt.alloc(), &steps);
}

#[test]
fn fails_for_a_folder(rt: HostRuntime) {
    let steps = [
        Step::MakeFolder("folder.pht"),
        Step::MakeFile("folder.pht/inner", "old"),
        Step::Fetch("folder.pht", 9, Err(FetchFault::Failed)),
        Step::Save("folder.pht", b"ab", Err(Failed)),
        Step::Exists("folder.pht.part", false),
        Step::Fetch("folder.pht/inner", 3, Ok(b"old")),
        Step::RemoveFile("folder.pht/inner"),
        Step::RemoveFolder("folder.pht"),
    ];
    check_steps(&rt, rt.alloc(), &steps);
}

// A device that never ends, and a link to it.
#[test]
fn fails_for_a_device(rt: HostRuntime) {
    let steps = [
        Step::MakeLink("/dev/zero", "device.pht"),
        Step::Fetch("/dev/zero", 9, Err(FetchFault::Failed)),
        Step::Fetch("device.pht", 9, Err(FetchFault::Failed)),
        Step::Save("device.pht", b"ab", Err(Failed)),
        Step::Exists("device.pht.part", false),
        Step::RemoveFile("device.pht"),
    ];
    check_steps(&rt, rt.alloc(), &steps);
}

// The link stays, and what it leads to.
#[test]
fn refuses_a_link(rt: HostRuntime) {
    let steps = [
        Step::MakeFile("led_to.pht", "old"),
        Step::MakeLink("led_to.pht", "link.pht"),
        Step::Save("link.pht", b"ab", Err(Failed)),
        Step::Exists("link.pht.part", false),
        Step::Fetch("link.pht", 3, Ok(b"old")),
        Step::Fetch("led_to.pht", 3, Ok(b"old")),
        Step::RemoveFile("link.pht"),
        Step::RemoveFile("led_to.pht"),
    ];
    check_steps(&rt, rt.alloc(), &steps);
}

#[test]
fn makes_a_part_file_anew(rt: HostRuntime) {
    let steps = [
        Step::MakeFile("anew.pht.part", "left from an earlier run"),
        Step::Save("anew.pht", b"ab", Ok(())),
        Step::Exists("anew.pht.part", false),
        Step::Fetch("anew.pht", 4, Ok(b"abab")),
        Step::RemoveFile("anew.pht"),
    ];
    check_steps(&rt, rt.alloc(), &steps);
}

// A file that has a piece of so many bytes twice.
fn check_long_save<R: rt::Files + Abort>(rt: &R, alloc: Global, len: usize, twice: usize) {
    let piece = "p".repeat(alloc, len).expect(rt, "memory");
    let whole = "p".repeat(alloc, twice).expect(rt, "memory");
    let mut files = DirFiles::new(alloc, rt, io::sink()).expect(rt, "memory");
    let mut into = Vec::new(alloc);
    check_save(rt, &mut files, "long.pht", piece.as_bytes(), Ok(()));
    check_fetch(
        rt,
        &mut files,
        ("long.pht", 140_000),
        &mut into,
        Ok(whole.as_bytes()),
    );
    fs::remove_file(rt, "long.pht").expect(rt, "remove_file");
}

// Pieces that are gathered, that fill what is gathered, and that are longer than it.
#[test]
fn saves_more_than_it_gathers(rt: HostRuntime) {
    for (len, twice) in [(32_768, 65_536), (40_000, 80_000), (70_000, 140_000)] {
        check_long_save(&rt, rt.alloc(), len, twice);
    }
}

#[test]
fn drops_a_file_that_is_begun(rt: HostRuntime) {
    let steps = [
        Step::Begin("a", Ok(())),
        Step::Exists("a.part", true),
        Step::Begin("b", Ok(())),
        Step::Exists("a.part", false),
        Step::Begin("absent/c", Err(Failed)),
        Step::Exists("b.part", false),
    ];
    check_steps(&rt, rt.alloc(), &steps);
}

#[test]
fn saves_names_of_at_most_250_bytes(rt: HostRuntime) {
    let longest = "n".repeat(rt.alloc(), 250).expect(&rt, "memory");
    let longer = "n".repeat(rt.alloc(), 251).expect(&rt, "memory");
    let steps = [
        Step::Save(longest.as_str(), b"ab", Ok(())),
        Step::Save(longer.as_str(), b"ab", Err(Failed)),
        Step::MakeFile(longer.as_str(), "abc"),
        Step::Fetch(longer.as_str(), 9, Ok(b"abc")),
        Step::RemoveFile(longest.as_str()),
        Step::RemoveFile(longer.as_str()),
    ];
    check_steps(&rt, rt.alloc(), &steps);
}

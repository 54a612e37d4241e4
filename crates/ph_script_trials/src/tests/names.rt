//! The names of cursors and files.
use super::claims::{holds, holds_for};
use ph_script::{Bad, CoordBuffer, FileName, Name, read_command};
use std::process::Abort;

fn name(rt: &impl Abort, text: &str) -> Name {
    Name::new(text).expect(rt, "no name")
}

#[test]
fn names(rt: HostRuntime) {
    let longest = "abcdefghijklmnopqrstuvwxyz-_0123";
    holds(&rt, longest.len() == 32);
    holds(&rt, name(&rt, longest).as_str() == longest);
    for text in [
        "",
        "a b",
        "a.b",
        "a/",
        "\u{e9}",
        "abcdefghijklmnopqrstuvwxyz-_01234",
    ] {
        holds_for(&rt, Name::new(text).is_none(), &text);
    }
}

#[test]
fn order_of_names(rt: HostRuntime) {
    let (shorter, dash, zero) = (name(&rt, "a"), name(&rt, "a-"), name(&rt, "a0"));
    holds(&rt, dash == name(&rt, "a-"));
    assert!(rt; dash < zero);
    assert!(rt; shorter < dash);
}

fn file_name<'t>(rt: &impl Abort, text: &'t str) -> FileName<'t> {
    FileName::new(text).expect(rt, "no name")
}

#[test]
fn file_names(rt: HostRuntime) {
    let longest = [b'~'; 255];
    let text = str::from_utf8(&longest).expect(&rt, "text");
    holds(&rt, file_name(&rt, text).as_str().len() == 255);
    for text in ["", "a b", "a\u{7f}", "\u{e9}", "a\n"] {
        holds_for(&rt, FileName::new(text).is_none(), &text);
    }
    holds(&rt, file_name(&rt, "a-") != file_name(&rt, "a"));
}

#[test]
fn file_name_too_long(rt: HostRuntime) {
    let line = [b"load ".as_slice(), &[b'!'; 256]]
        .concat(rt.alloc())
        .expect(&rt, "memory");
    let mut coords = CoordBuffer::new();
    holds(
        &rt,
        matches!(read_command(&line, 2, &mut coords), Err(Bad::Name)),
    );
}

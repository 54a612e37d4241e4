//! The rules of a snapshot of either version, looked at digit by digit.

ghost use Rattle.std.specs.Prelude.{◌^◌, ◌<◌, ◌≤◌, IfOk};

use super::digits::Digits;
use ph_snap::LoadFault;
use ph_specs::Kind;
use std::alloc::{AllocError, Global};

const ABSENT: u64 = 0;

const POINT: u64 = 1;

const CHILD: u64 = 2;

// The two headers that there are.
#[derive(Clone, Copy)]
enum Version {
    First,
    Second,
}

// What the rows of a snapshot are, how many numbers each has, and how many digits each of these.
#[derive(Clone, Copy)]
struct Form {
    kind: Kind,
    dims: u8,
    width: u8,
    ghost few: { dims ≤ 16 },
    ghost wide: { width ≤ 62 },
}

// Where a record stands: as the root, or under a node, at a level below another one. What is known of its points has zeros
// behind it.
#[derive(Clone, Copy)]
struct Standing {
    is_root: bool,
    below: u8,
    known: [u64; 16],
    ghost low: { below ≤ 62 },
}

// What the first word of a record says.
#[derive(Clone, Copy)]
struct Head {
    level: u8,
    layout: u8,
    entries: u32,
    children: u32,
}

// What stands at an address.
#[derive(Clone, Copy)]
struct Place {
    kind: u64,
    addr: u64,
    body: [u64; 16],
}

// A record that keeps the rules, and how many bytes it has.
#[derive(Drop)]
struct Record {
    level: u8,
    places: Vec<Place>,
    size: usize,
}

/// The first fault of bytes that are to be a snapshot of this kind, of so many dimensions and of this width.
pub(crate) fn plain_fault(
    alloc: Global,
    bytes: &[u8],
    kind: Kind,
    dims: u8,
    width: u8,
) -> Option<LoadFault>
    requires few { dims ≤ 16 }
    requires wide { width ≤ 62 }
{
    let form = Form { kind, dims, width };
    let Some(version) = version_of(bytes) else {
        return Some(LoadFault::Magic);
    };
    if let Some(fault) = header_fault(version, bytes, &form) {
        return Some(fault);
    }
    if bytes.get(flag_place(version)) == Some(&0) {
        return fault_behind(bytes, 8);
    }
    let root = Standing {
        is_root: true,
        below: width,
        known: [0; 16],
    };
    match end_of_node(alloc, bytes, 8, &form, &root) {
        Ok(end) => fault_behind(bytes, end),
        Err(fault) => Some(fault),
    }
}

// The fault of bytes whose last record ends at a place.
fn fault_behind(bytes: &[u8], end: usize) -> Option<LoadFault> {
    if end < bytes.len() {
        return Some(LoadFault::Extra(end as u64));
    }
    None
}

fn version_of(bytes: &[u8]) -> Option<Version> {
    match bytes {
        [b'P', b'H', b'T', b'1', ..] => Some(Version::First),
        [b'P', b'H', b'T', b'2', ..] => Some(Version::Second),
        _ => None,
    }
}

// Where a header tells whether there is a root.
fn flag_place(version: Version) -> usize {
    match version {
        Version::First => 6,
        Version::Second => 7,
    }
}

// The fault of what stands behind the first four bytes of a header.
fn header_fault(version: Version, bytes: &[u8], form: &Form) -> Option<LoadFault> {
    for at in 4..8 {
        if !is_header_byte(version, bytes, at) {
            return Some(LoadFault::Header(at as u64));
        }
    }
    let kind = match form.kind {
        Kind::Points => 0,
        Kind::Boxes => 1,
    };
    let is_wanted = bytes.get(4) == Some(&kind)
        && bytes.get(5) == Some(&form.dims)
        && width_in(version, bytes) == Some(&form.width);
    if is_wanted {
        None
    } else {
        Some(LoadFault::Dims)
    }
}

// The width that a header names. The first version has one width.
fn width_in(version: Version, bytes: &[u8]) -> Option<&u8> {
    match version {
        Version::First => Some(&32),
        Version::Second => bytes.get(6),
    }
}

// Whether a byte of the header from 4 to 7 is there, and is one that may stand there.
fn is_header_byte(version: Version, bytes: &[u8], at: usize) -> bool {
    let (Some(kind), Some(byte)) = (bytes.get(4), bytes.get(at)) else {
        return false;
    };
    match (at, version) {
        (5, Version::First) => are_dims(8, *kind, *byte),
        (5, Version::Second) => are_dims(16, *kind, *byte),
        (6, Version::Second) => 1 <= *byte && *byte <= 62,
        (7, Version::First) => *byte == 0,
        _ => *byte <= 1,
    }
}

// Whether so many dimensions, of which there may be `most`, go with the byte of a kind.
fn are_dims(most: u8, kind: u8, dims: u8) -> bool {
    1 <= dims && dims <= most && (kind == 0 || dims % 2 == 0)
}

// The end of the record that begins at a place and of those of all nodes below its own, or the first fault of these.
fn end_of_node(
    alloc: Global,
    bytes: &[u8],
    at: usize,
    form: &Form,
    standing: &Standing,
) -> Result<usize, LoadFault> {
    let record = match record_at(alloc, bytes, at, form, standing) {
        Ok(record) => record,
        Err(fault) => return Err(fault),
    };
    let mut end = at.saturating_add(record.size);
    for place in &record.places {
        if place.kind == CHILD {
            let below = Standing {
                is_root: false,
                below: record.level,
                known: known_behind(place, record.level, form, standing),
            };
            match end_of_node(alloc, bytes, end, form, &below) {
                Ok(behind) => end = behind,
                Err(fault) => return Err(fault),
            }
        }
    }
    Ok(end)
}

// The record that begins at a place, or its fault.
fn record_at(
    alloc: Global,
    bytes: &[u8],
    at: usize,
    form: &Form,
    standing: &Standing,
) -> Result<Record, LoadFault>
    ensures { IfOk result (λ r. r.level < standing.now.below) }
{
    let (short, wrong) = (LoadFault::Short(at as u64), LoadFault::Node(at as u64));
    let bytes = bytes.get(at..).unwrap_or(&[]);
    let Some(head) = head_of(bytes) else {
        return Err(short);
    };
    if head.level >= standing.below || !head_fits(&head, form, standing) {
        return Err(wrong);
    }
    let size = size_of(&head, form);
    if bytes.len() < size {
        return Err(short);
    }
    let mut digits = Digits::new(bytes.get(8..).unwrap_or(&[]));
    let Ok(places) = places_of(alloc, &mut digits, &head, form) else {
        return Err(LoadFault::NoMemory);
    };
    if digits.rest_of_word() > 0 || !places_fit(&places, &head) {
        return Err(wrong);
    }
    if !points_fit(&places, head.level, form, standing) {
        return Err(wrong);
    }
    Ok(Record {
        level: head.level,
        places,
        size,
    })
}

fn head_of(record: &[u8]) -> Option<Head> {
    let [level, layout, a, b, c, d, e, f, ..] = record else {
        return None;
    };
    Some(Head {
        level: *level,
        layout: *layout,
        entries: u32::from_be_bytes([0, *a, *b, *c]),
        children: u32::from_be_bytes([0, *d, *e, *f]),
    })
}

// Whether a first word may begin the record.
fn head_fits(head: &Head, form: &Form, standing: &Standing) -> bool {
    let least = if standing.is_root { 1 } else { 2 };
    (!standing.is_root || form.width.checked_sub(1) == Some(head.level))
        && least <= head.entries
        && u64::from(head.entries) <= addresses(form)
        && head.children <= head.entries
        && (0 < head.level || head.children == 0)
        && head.layout == smaller_layout(head, form)
        && has_zeros_from(head.level, &standing.known)
}

// Whether numbers have only zeros at a level and below.
fn has_zeros_from(level: u8, numbers: &[u64]) -> bool {
    numbers
        .iter()
        .all(|x| x.trailing_zeros() > u32::from(level))
}

// How many addresses there are.
fn addresses(form: &Form) -> u64
    ensures { result ≤ 65536 }
{
    1 << form.dims
}

fn linear_digits(head: &Head, form: &Form) -> u64
    ensures { result < 2 ^ 48 }
{
    let (dims, level) = (u64::from(form.dims), u64::from(head.level));
    u64::from(head.entries) * (1 + dims + dims * level)
}

fn cube_digits(head: &Head, form: &Form) -> u64
    ensures { result < 2 ^ 48 }
{
    let (dims, level) = (u64::from(form.dims), u64::from(head.level));
    addresses(form) * (2 + dims * level)
}

fn smaller_layout(head: &Head, form: &Form) -> u8 {
    if cube_digits(head, form) < linear_digits(head, form) {
        1
    } else {
        0
    }
}

// How many bytes a record has: those of its first word, of its tables and of a value for each point.
fn size_of(head: &Head, form: &Form) -> usize {
    let digits = cube_digits(head, form).min(linear_digits(head, form));
    let points = head.entries.saturating_sub(head.children);
    8 * (1 + digits.div_ceil(64) as usize + points as usize)
}

// What the tables of a record say.
fn places_of(
    alloc: Global,
    digits: &mut Digits<'_>,
    head: &Head,
    form: &Form,
) -> Result<Vec<Place>, AllocError> {
    let mut places = if head.layout == 1 {
        cube_places(alloc, digits, form)?
    } else {
        linear_places(alloc, digits, head.entries, form)?
    };
    for place in &mut places {
        place.body = digits.numbers(form.dims, head.level);
    }
    Ok(places)
}

// The kinds of all addresses.
fn cube_places(
    alloc: Global,
    digits: &mut Digits<'_>,
    form: &Form,
) -> Result<Vec<Place>, AllocError> {
    let mut places = Vec::new(alloc);
    for addr in 0..addresses(form) {
        let kind = digits.number(2);
        places.push(Place {
            kind,
            addr,
            body: [0; 16],
        })?;
    }
    Ok(places)
}

// So many kinds, and the addresses behind them.
fn linear_places(
    alloc: Global,
    digits: &mut Digits<'_>,
    count: u32,
    form: &Form,
) -> Result<Vec<Place>, AllocError> {
    let mut places = Vec::new(alloc);
    for _ in 0..count {
        let kind = if digits.number(1) == 1 { CHILD } else { POINT };
        places.push(Place {
            kind,
            addr: 0,
            body: [0; 16],
        })?;
    }
    for place in &mut places {
        place.addr = digits.number(form.dims);
    }
    Ok(places)
}

// Whether tables are those of a first word.
fn places_fit(places: &[Place], head: &Head) -> bool {
    let entries = places.iter().filter(|place| place.kind != ABSENT).count();
    let children = places.iter().filter(|place| place.kind == CHILD).count();
    entries == head.entries as usize
        && children == head.children as usize
        && places.iter().all(|place| is_place(place))
        && places
            .iter()
            .zip(places.iter().skip(1))
            .all(|(a, b)| a.addr < b.addr)
}

fn is_place(place: &Place) -> bool {
    place.kind <= CHILD && (place.kind != ABSENT || place.body.iter().all(|x| *x == 0))
}

// Whether each point is a row.
fn points_fit(places: &[Place], level: u8, form: &Form, standing: &Standing) -> bool
    requires { level < 62 }
{
    for place in places {
        if place.kind == POINT && !is_row(&known_behind(place, level, form, standing), form) {
            return false;
        }
    }
    true
}

// Whether coordinates with their least digit moved to 0 may be those of a row.
fn is_row(point: &[u64; 16], form: &Form) -> bool {
    let half = usize::from(form.dims / 2);
    let (low, rest) = point.split_at(half);
    match form.kind {
        Kind::Points => true,
        Kind::Boxes => low.iter().zip(rest).all(|(a, b)| a <= b),
    }
}

// What is known of the points behind a place: what was known, then a digit of the address, and then the body.
fn known_behind(place: &Place, level: u8, form: &Form, standing: &Standing) -> [u64; 16]
    requires { level < 62 }
{
    let dims = usize::from(form.dims);
    let mut known = standing.known;
    let mut addr = place.addr;
    for (x, y) in known[..dims].iter_mut().zip(&place.body[..dims]).rev() {
        *x |= (addr & 1) << level | *y;
        addr >>= 1;
    }
    known
}

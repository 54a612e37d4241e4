//! The header of a snapshot.

ghost use Rattle.std.specs.Prelude.{◌≡◌, ◌==◌, ◌≤◌, true, false, IfOk, IfErr};
ghost use Rattle.ph_specs.specs.RecordNames.{has_magic as is_magic, is_flag, is_width, dims_fit, kind_byte};
ghost use Rattle.ph_snap.specs.Headers.{IsHeader, IsHeaderFault, Tested};

use crate::fault::LoadFault;
use ph_specs::Kind;

/// What the header of a snapshot says: the version of the format, what the rows are, how many dimensions they have, the width
/// of their coordinates in bits, and whether a root follows.
///
/// Version 1 has 1 to 8 dimensions and width 32, version 2 has 1 to 16 dimensions and a width from 1 to 62. Boxes have an
/// even number of dimensions.
#[derive(Clone, Copy, Debug, PartialEq, Eq)]
pub struct Header {
    pub version: u32,
    pub kind: Kind,
    pub dims: u32,
    pub width: u32,
    pub root: bool,
}

/// Reads the header that bytes begin with, of version 1 or 2. What stands behind it is not looked at.
pub fn read_header(bytes: &[u8]) -> Result<Header, LoadFault>
    ensures header { IfOk result (λ h. IsHeader bytes.now h) }
    ensures fault { IfErr result (λ e. IsHeaderFault bytes.now e) }
{
    if bytes.starts_with(b"PHT1") {
        return read_first_version(bytes);
    }
    if bytes.starts_with(b"PHT2") {
        return read_second_version(bytes);
    }
    Err(LoadFault::Magic)
}

fn read_first_version(bytes: &[u8]) -> Result<Header, LoadFault>
    requires { is_magic 1 bytes.now ≡ true }
    ensures header { IfOk result (λ h. IsHeader bytes.now h) }
    ensures fault { IfErr result (λ e. IsHeaderFault bytes.now e) }
{
    let Some(kind) = flag_at(bytes, 4) else {
        return Err(LoadFault::Header(4));
    };
    let Some(dims) = dims_for(8, kind, bytes) else {
        return Err(LoadFault::Header(5));
    };
    let Some(root) = flag_at(bytes, 6) else {
        return Err(LoadFault::Header(6));
    };
    let Some(_) = zero_at(bytes, 7) else {
        return Err(LoadFault::Header(7));
    };
    Ok(Header {
        version: 1,
        kind: kind_of(kind),
        dims: u32::from(dims),
        width: 32,
        root: root == 1,
    })
}

fn read_second_version(bytes: &[u8]) -> Result<Header, LoadFault>
    requires first { is_magic 1 bytes.now ≡ false }
    requires second { is_magic 2 bytes.now ≡ true }
    ensures header { IfOk result (λ h. IsHeader bytes.now h) }
    ensures fault { IfErr result (λ e. IsHeaderFault bytes.now e) }
{
    let Some(kind) = flag_at(bytes, 4) else {
        return Err(LoadFault::Header(4));
    };
    let Some(dims) = dims_for(16, kind, bytes) else {
        return Err(LoadFault::Header(5));
    };
    let Some(width) = width_at(bytes, 6) else {
        return Err(LoadFault::Header(6));
    };
    let Some(root) = flag_at(bytes, 7) else {
        return Err(LoadFault::Header(7));
    };
    Ok(Header {
        version: 2,
        kind: kind_of(kind),
        dims: u32::from(dims),
        width: u32::from(width),
        root: root == 1,
    })
}

// The byte at a place, if it is 0 or 1.
fn flag_at(bytes: &[u8], at: usize) -> Option<u8>
    ensures { Tested bytes.now at is_flag result }
{
    match bytes.get(at) {
        Some(byte) if *byte <= 1 => Some(*byte),
        _ => None,
    }
}

// The number of dimensions, if it is at most so much and goes with the kind that this byte stands for.
fn dims_for(most: u8, kind: u8, bytes: &[u8]) -> Option<u8>
    ensures { Tested bytes.now 5 (dims_fit most kind) result }
{
    match bytes.get(5) {
        Some(byte) if 1 <= *byte && *byte <= most && (kind == 0 || *byte % 2 == 0) => Some(*byte),
        _ => None,
    }
}

// The byte at a place, if it is a width.
fn width_at(bytes: &[u8], at: usize) -> Option<u8>
    ensures { Tested bytes.now at is_width result }
{
    match bytes.get(at) {
        Some(byte) if 1 <= *byte && *byte <= 62 => Some(*byte),
        _ => None,
    }
}

fn zero_at(bytes: &[u8], at: usize) -> Option<u8>
    ensures { Tested bytes.now at (λ b. b == 0) result }
{
    match bytes.get(at) {
        Some(0) => Some(0),
        _ => None,
    }
}

fn kind_of(byte: u8) -> Kind
    requires { byte ≤ 1 }
    ensures { byte ≡ kind_byte result }
{
    if byte == 0 { Kind::Points } else { Kind::Boxes }
}

//! What the words of the command line ask for.

ghost use Rattle.std.specs.Prelude.{◌≤◌};

/// The layout of the records.
#[derive(Clone, Copy)]
pub enum Form {
    Linear,
    Cube,
}

/// What is done again and again.
#[derive(Clone, Copy)]
pub enum Call {
    /// A record and an entry of it are chosen, and nothing is read.
    Nothing,
    /// The place of an address that is there.
    Find,
    /// An entry by its place.
    Entry,
    /// The place of the first entry at or behind an address.
    Next,
    /// A record is written over the one before it.
    Write,
}

/// Records of 2, 3 or 8 dimensions, of so many entries at a level, and how often the call is done.
#[derive(Clone, Copy)]
pub struct Request {
    pub form: Form,
    pub call: Call,
    pub dims: u32,
    pub entries: u32,
    pub level: u32,
    pub records: u32,
    pub calls: u64,
    ghost low: { level ≤ 61 },
}

/// Reads the words `FORM CALL DIMS ENTRIES LEVEL RECORDS CALLS`.
pub fn read_request(words: &[String]) -> Option<Request> {
    let [form, call, dims, entries, level, records, calls] = words else {
        return None;
    };
    let form = match form.as_str() {
        "linear" => Form::Linear,
        "cube" => Form::Cube,
        _ => return None,
    };
    let call = match call.as_str() {
        "nothing" => Call::Nothing,
        "find" => Call::Find,
        "entry" => Call::Entry,
        "next" => Call::Next,
        "write" => Call::Write,
        _ => return None,
    };
    let dims = dims.parse::<u32>().ok()?;
    let entries = entries.parse::<u32>().ok()?;
    let level = level.parse::<u32>().ok()?;
    let records = records.parse::<u32>().ok()?;
    let calls = calls.parse::<u64>().ok()?;
    if dims != 2 && dims != 3 && dims != 8 {
        return None;
    }
    if level > 61 || entries == 0 || entries > 1 << dims {
        return None;
    }
    Some(Request {
        form,
        call,
        dims,
        entries,
        level,
        records,
        calls,
    })
}

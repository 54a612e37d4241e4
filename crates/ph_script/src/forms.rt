//! The forms of the commands.
ghost use Rattle.std.specs.Prelude.{◌≡◌, ℕ, map, replicate};
ghost use Rattle.std.specs.List.{AllByRecursion};
ghost use Rattle.ph_specs.specs.ProgramNames.{forms as all_forms};
ghost use Rattle.ph_script.specs.Forms.{place_of, group_of, form_of, IsRow};

use ph_specs::SetOperation;

/// A command, by its form.
#[derive(Clone, Copy)]
pub(crate) enum Verb {
    Open,
    OpenBits,
    OpenMax,
    OpenBitsMax,
    Put,
    Get,
    Del,
    Relocate,
    Count,
    Clear,
    Window,
    Cursor,
    Page,
    Near,
    Within,
    Overlap,
    Inside,
    Covers,
    Save,
    Load,
    Import,
    ImportHeader,
    Export,
    Stats,
    Select,
    Same,
    Join,
    Combine(SetOperation),
    Keep,
    Back,
}

/// What a word behind that of a command is read as.
#[derive(Clone, Copy)]
pub(crate) enum Place {
    /// A coordinate; in a form, one for each dimension.
    Coordinate,
    /// A number from 0 to this one.
    UpTo(u128),
    /// A cursor's name.
    Name,
    /// A file's name.
    FileName,
    /// This word.
    Fixed(&'static [u8]),
    /// One of two words.
    Either(&'static [u8], &'static [u8]),
}

/// A command's word, what stands behind it, and the command that this makes.
#[derive(Clone, Copy)]
pub(crate) struct Form {
    pub word: &'static [u8],
    pub places: &'static [Place],
    pub verb: Verb,
}

const COUNT: u128 = u32::MAX as u128;

const VALUE: u128 = u64::MAX as u128;

const RADIUS: u128 = u128::MAX;

// The most edits that can be kept.
const DEPTH: u128 = 65536;

const KINDS: Place = Place::Either(b"points", b"boxes");

const BITS: Place = Place::Fixed(b"bits");

const MAX: Place = Place::Fixed(b"max");

// The forms of all commands, in the order of the definitions. One more is a row here, a `Verb` and its command.
static FORMS: [Form; 32] = [
    Form {
        word: b"open",
        places: &[KINDS, Place::UpTo(COUNT)],
        verb: Verb::Open,
    },
    Form {
        word: b"open",
        places: &[KINDS, Place::UpTo(COUNT), BITS, Place::UpTo(COUNT)],
        verb: Verb::OpenBits,
    },
    Form {
        word: b"open",
        places: &[KINDS, Place::UpTo(COUNT), MAX, Place::UpTo(VALUE)],
        verb: Verb::OpenMax,
    },
    Form {
        word: b"open",
        places: &[
            KINDS,
            Place::UpTo(COUNT),
            BITS,
            Place::UpTo(COUNT),
            MAX,
            Place::UpTo(VALUE),
        ],
        verb: Verb::OpenBitsMax,
    },
    Form {
        word: b"put",
        places: &[Place::Coordinate, Place::UpTo(VALUE)],
        verb: Verb::Put,
    },
    Form {
        word: b"get",
        places: &[Place::Coordinate],
        verb: Verb::Get,
    },
    Form {
        word: b"del",
        places: &[Place::Coordinate],
        verb: Verb::Del,
    },
    Form {
        word: b"move",
        places: &[Place::Coordinate, Place::Coordinate],
        verb: Verb::Relocate,
    },
    Form {
        word: b"count",
        places: &[],
        verb: Verb::Count,
    },
    Form {
        word: b"clear",
        places: &[],
        verb: Verb::Clear,
    },
    Form {
        word: b"window",
        places: &[Place::Coordinate, Place::Coordinate],
        verb: Verb::Window,
    },
    Form {
        word: b"cursor",
        places: &[Place::Name, Place::Coordinate, Place::Coordinate],
        verb: Verb::Cursor,
    },
    Form {
        word: b"page",
        places: &[Place::Name, Place::UpTo(COUNT)],
        verb: Verb::Page,
    },
    Form {
        word: b"near",
        places: &[Place::Coordinate, Place::UpTo(COUNT)],
        verb: Verb::Near,
    },
    Form {
        word: b"within",
        places: &[Place::Coordinate, Place::UpTo(RADIUS)],
        verb: Verb::Within,
    },
    Form {
        word: b"overlap",
        places: &[Place::Coordinate],
        verb: Verb::Overlap,
    },
    Form {
        word: b"inside",
        places: &[Place::Coordinate],
        verb: Verb::Inside,
    },
    Form {
        word: b"covers",
        places: &[Place::Coordinate],
        verb: Verb::Covers,
    },
    Form {
        word: b"save",
        places: &[Place::FileName],
        verb: Verb::Save,
    },
    Form {
        word: b"load",
        places: &[Place::FileName],
        verb: Verb::Load,
    },
    Form {
        word: b"import",
        places: &[Place::FileName],
        verb: Verb::Import,
    },
    Form {
        word: b"import",
        places: &[Place::FileName, Place::Fixed(b"header")],
        verb: Verb::ImportHeader,
    },
    Form {
        word: b"export",
        places: &[Place::FileName],
        verb: Verb::Export,
    },
    Form {
        word: b"stats",
        places: &[],
        verb: Verb::Stats,
    },
    Form {
        word: b"use",
        places: &[Place::Either(b"a", b"b")],
        verb: Verb::Select,
    },
    Form {
        word: b"same",
        places: &[],
        verb: Verb::Same,
    },
    Form {
        word: b"join",
        places: &[],
        verb: Verb::Join,
    },
    Form {
        word: b"union",
        places: &[],
        verb: Verb::Combine(SetOperation::Union),
    },
    Form {
        word: b"common",
        places: &[],
        verb: Verb::Combine(SetOperation::Common),
    },
    Form {
        word: b"minus",
        places: &[],
        verb: Verb::Combine(SetOperation::Minus),
    },
    Form {
        word: b"keep",
        places: &[Place::UpTo(DEPTH)],
        verb: Verb::Keep,
    },
    Form {
        word: b"back",
        places: &[Place::UpTo(COUNT)],
        verb: Verb::Back,
    },
];

/// The forms of all commands.
pub(crate) fn forms() -> &'static [Form]
    ensures all { (dims : ℕ) → map (form_of dims) result.now ≡ all_forms dims }
    ensures rows { AllByRecursion IsRow result.now }
{
    &FORMS
}

impl Place {
    /// How many words it stands for in a form.
    pub(crate) fn count(self, dims: usize) -> usize
        ensures { group_of dims self ≡ replicate result (place_of self) }
    {
        match self {
            Place::Coordinate => dims,
            Place::UpTo(_) | Place::Name | Place::FileName | Place::Fixed(_) | Place::Either(..) =>
                1,
        }
    }
}

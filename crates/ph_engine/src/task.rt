//! What the words behind the program's name ask for.
ghost use Rattle.std.specs.Prelude.{◌≡◌, ◌+◌, ◌∷◌, [], true, map, string_bytes};
ghost use Rattle.std.specs.Option.{SomeIff};
ghost use Rattle.ph_specs.specs.ProgramNames.{is_number_below, number, task, number_of_word};
ghost use Rattle.ph_engine.specs.Asking.{asked};

use ph_coord::{Number, read_number};
use ph_script::FileName;

/// What a call of the program does.
#[derive(Drop)]
pub(crate) enum Task<'w> {
    Run,
    Check(FileName<'w>),
    Soak { n: u32, start: u64 },
    Usage,
}

pub(crate) fn task_of(words: &[String]) -> Task<'_>
    ensures { asked result ≡ task (map string_bytes words.now) }
{
    match words {
        [word] => run_task(word.as_str()),
        [word, file] => check_task(word.as_str(), file.as_str()),
        [word, n, start] => soak_task(word.as_str(), n.as_str(), start.as_str()),
        _ => Task::Usage,
    }
}

fn run_task(word: &str) -> Task<'_>
    ensures { asked result ≡ task (word.now ∷ []) }
{
    if word == "run" {
        Task::Run
    } else {
        Task::Usage
    }
}

fn check_task<'w>(word: &str, file: &'w str) -> Task<'w>
    ensures { asked result ≡ task (word.now ∷ file.now ∷ []) }
{
    if word != "check" {
        return Task::Usage;
    }
    match FileName::new(file) {
        Some(file) => Task::Check(file),
        None => Task::Usage,
    }
}

fn soak_task<'w>(word: &'w str, n: &str, start: &str) -> Task<'w>
    ensures { asked result ≡ task (word.now ∷ n.now ∷ start.now ∷ []) }
{
    if word != "soak" {
        return Task::Usage;
    }
    match (
        number_within(n, u64::from(u32::MAX)),
        number_within(start, u64::MAX),
    ) {
        (Some(n), Some(start)) => Task::Soak { n: n as u32, start },
        _ => Task::Usage,
    }
}

// The number that a word spells, if it spells one from 0 to the most.
fn number_within(word: &str, most: u64) -> Option<u64>
    ensures number { SomeIff result (is_number_below (most + 1) (number word.now) ≡ true) (number_of_word word.now) }
{
    match read_number(word.as_bytes()) {
        Number::Whole { minus, size } if !minus && size <= u128::from(most) => Some(size as u64),
        _ => None,
    }
}

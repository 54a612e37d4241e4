//! Commands that are made of drawn numbers.
ghost use Rattle.std.specs.Prelude.{◌≡◌, ◌<◌, ◌^◌, ◌≤◌, ◌≤ℤ◌, ◌∷◌, ◌++◌, [], length, pos, neg_ℤ, MatchOption, IfSome};
ghost use Rattle.ph_specs.specs.ProgramNames.{next_state, draw_of, small_coordinate, command_of_draws, generate};
ghost use Rattle.ph_script.specs.Meaning.{command_of, numbers_of};
ghost use Rattle.ph_script.specs.Fit.{HasDims};
ghost use Rattle.ph_script.specs.declared.coords.Coord.TheVariants.{Whole as Coordinate};

use crate::command::Command;
use crate::coords::{Coord, CoordBuffer, Coords};
use std::marker::Model;

// Each state is the one before, times this and more by this, within 31 bits.
const FACTOR: u64 = 1103515245;

const STEP: u64 = 12345;

const STATES: u64 = 1 << 31;

/// Commands about points of two dimensions, drawn one after another from a start. It is seen as the list of those that are
/// still to come.
///
/// It takes no memory.
#[derive(Debug, Drop)]
pub struct Gen {
    left: u32,
    state: u64,
}

impl Model for Gen {
    ghost use Rattle.std.specs.Prelude.{List, ◌<◌, ◌^◌};
    ghost use Rattle.ph_specs.specs.ProgramNames.{Command, generate_from};

    ghost Value = { List Command };

    ghost view = { λ g. generate_from g.left g.state };

    ghost invariant = { λ g. g.state < 2 ^ 31 };
}

impl Gen {
    /// So many commands, from a start.
    pub fn new(n: u32, start: u64) -> Gen
        ensures commands { result ≡ generate n start }
        ensures count { length result ≡ n }
    {
        Gen {
            left: n,
            state: start % STATES,
        }
    }

    /// The next command. Its coordinates are written into a buffer, whatever it had before.
    pub fn next<'c>(&mut self, coords: &'c mut CoordBuffer) -> Option<Command<'c>>
        ensures next { MatchOption result ((self.old ≡ []) × (self.new ≡ [])) (λ c. self.old ≡ command_of c ∷ self.new) }
        ensures dims { IfSome result (λ c. HasDims 2 c) }
    {
        if self.left == 0 {
            return None;
        }
        self.left -= 1;
        let state = &mut self.state;
        let (verb, first, second, value) = (draw(state), draw(state), draw(state), draw(state));
        Some(drawn(verb, first, second, value, coords))
    }
}

// A number of 15 bits.
fn draw(state: &mut u64) -> u64
    requires { state.old < 2 ^ 31 }
    ensures state { state.new ≡ next_state state.old }
    ensures range { state.new < 2 ^ 31 }
    ensures draw { result ≡ draw_of state.new }
{
    *state = (FACTOR * *state + STEP) % STATES;
    *state / 65536
}

// The command that four draws make.
fn drawn<'c>(
    verb: u64,
    first: u64,
    second: u64,
    value: u64,
    coords: &'c mut CoordBuffer,
) -> Command<'c>
    ensures meaning { command_of result ≡ command_of_draws verb first second value }
    ensures dims { HasDims 2 result }
{
    let x = small_coordinate(first);
    let y = small_coordinate(second);
    match verb % 8 {
        3 => Command::Get {
            at: point(coords, x, y),
        },
        4 => Command::Del {
            at: point(coords, x, y),
        },
        5 => {
            let (from, to) = two_points(coords, x, y, y, x);
            Command::Relocate { from, to }
        }
        6 => {
            let (lo, hi) = two_points(coords, x, y, x + 7, y + 7);
            Command::Window { lo, hi }
        }
        7 => Command::Near {
            q: point(coords, x, y),
            n: 4,
        },
        _ => Command::Put {
            at: point(coords, x, y),
            value,
        },
    }
}

// From -256 to 255.
fn small_coordinate(draw: u64) -> i64
    ensures value { result ≡ small_coordinate draw }
    ensures least { neg_ℤ (pos 256) ≤ℤ result }
    ensures most { result ≤ℤ pos 255 }
{
    (draw % 512) as i64 - 256
}

fn point<'c>(coords: &'c mut CoordBuffer, x: i64, y: i64) -> Coords<'c>
    ensures numbers { numbers_of result ≡ x ∷ y ∷ [] }
    ensures size { length result ≡ 2 }
{
    coords.clear();
    push_point(coords, x, y);
    Coords::new(coords.as_slice())
}

// The points (x, y) and (u, v).
fn two_points<'c>(
    coords: &'c mut CoordBuffer,
    x: i64,
    y: i64,
    u: i64,
    v: i64,
) -> (Coords<'c>, Coords<'c>)
    ensures first { numbers_of result.0 ≡ x ∷ y ∷ [] }
    ensures second { numbers_of result.1 ≡ u ∷ v ∷ [] }
    ensures sizes { (length result.0 ≡ 2) × (length result.1 ≡ 2) }
{
    coords.clear();
    push_point(coords, x, y);
    push_point(coords, u, v);
    let (first, second) = coords.as_slice().split_at(2);
    (Coords::new(first), Coords::new(second))
}

fn push_point(coords: &mut CoordBuffer, x: i64, y: i64)
    requires { length coords.old ≤ 2 }
    ensures { coords.new ≡ coords.old ++ Coordinate x ∷ Coordinate y ∷ [] }
{
    coords.push(Coord::Whole(x));
    coords.push(Coord::Whole(y));
}

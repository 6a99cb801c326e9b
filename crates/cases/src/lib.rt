// What the programs that run stored cases read in a case: arrays of bytes and of commands, a ring, and an outcome's number. Places are
// indices from 0.
#![tactic(auto)]

ghost use Rattle.std.specs.Prelude.{◌≡◌, ◌+◌, ◌≤◌, length};
ghost use Rattle.model.specs.Values.{outcome_number};
ghost use Rattle.cases.specs.Cases.{bytes_at, bools_at, health_at, commands_at, ring_at};

use model::{Commands, Health, Refusal, Ring};
use std::array;

// Twenty bytes of a case.
pub fn bytes_at(case: &[u8], from: usize) -> [u8; 20]
    requires { from + 20 ≤ length case.now }
    ensures { result ≡ bytes_at case.now from }
{
    array::from_fn(|i| case[from + i])
}

// Twenty commands or locks of a case: 1 is on or closed, or locked.
pub fn bools_at(case: &[u8], from: usize) -> [bool; 20]
    requires { from + 20 ≤ length case.now }
    ensures { result ≡ bools_at case.now from }
{
    array::from_fn(|i| case[from + i] == 1)
}

// The health of every part, a byte each, then "the lock beside the health" (document 02, Note 7) of every generator.
pub fn health_at(case: &[u8], from: usize) -> Health
    requires { from + 80 ≤ length case.now }
    ensures { result ≡ health_at case.now from }
{
    Health {
        generators: bytes_at(case, from),
        generator_breakers: bytes_at(case, from + 20),
        bus_breakers: bytes_at(case, from + 40),
        locked: bools_at(case, from + 60),
    }
}

// The command of every part, a byte each.
pub fn commands_at(case: &[u8], from: usize) -> Commands
    requires { from + 60 ≤ length case.now }
    ensures { result ≡ commands_at case.now from }
{
    Commands {
        generators: bools_at(case, from),
        generator_breakers: bools_at(case, from + 20),
        bus_breakers: bools_at(case, from + 40),
    }
}

// A ring of n buses, its healths and locks, and its commands.
pub fn ring_at(case: &[u8], n: u8, from: usize) -> Ring
    requires { from + 140 ≤ length case.now }
    ensures { result ≡ ring_at case.now n from }
{
    Ring {
        n,
        health: health_at(case, from),
        commands: commands_at(case, from + 80),
    }
}

// The number of an outcome, 0 where it is served.
pub fn outcome_number(outcome: Result<(), Refusal>) -> u8
    ensures { result ≡ outcome_number outcome }
{
    match outcome {
        Ok(()) => 0,
        Err(refusal) => words::refusal_number(refusal),
    }
}

// The stored cases of a program, and the count of those that differ from the simulation's.
#![tactic(auto)]

ghost use Rattle.std.specs.Prelude.{◌≡◌, cond, ◌+◌, ◌^◌, ◌≤◌, ◌<◌, length, replicate, true};
ghost use Rattle.std.specs.Fn.{FnOnceReturnsAtMut};

use std::io::Read;
use std::rt::Files;
use std::{fs, io};

// How many cases were run, and how many differ.
#[derive(Clone, Copy, Default)]
pub struct Tally {
    pub cases: u64,
    pub differ: u64,
}

// The file of the cases: the gate puts data/cases beside the program. What a file holds lies outside: the library's call ensures nothing
// either.
pub fn stored<R: Files>(rt: &R) -> io::Result<R::File>
    ensures { Unit {0} }
{
    fs::open(rt, "cases")
}

// A case more, and one that differs more unless it agrees.
pub fn counted(tally: Tally, agrees: bool) -> Tally
    requires { (tally.cases + 1 < 2 ^ 64) × (tally.differ + 1 < 2 ^ 64) }
    ensures counts { result ≡ record { cases = tally.cases + 1; differ = cond agrees tally.differ (tally.differ + 1) } }
    ensures bounds { (result.cases ≤ tally.cases + 1) × (result.differ ≤ tally.differ + 1) }
{
    let more = if agrees { 0 } else { 1 };
    Tally {
        cases: tally.cases + 1,
        differ: tally.differ + more,
    }
}

// The line that a program prints. The gate holds it to the program's stdout; no contract can speak of what was written.
pub fn print(rt: &impl Print, tally: Tally) -> io::Result<()>
    ensures { Unit {0} }
{
    let cases = tally.cases;
    let differ = tally.differ;
    println!(rt; "{cases} cases, {differ} differ")
}

// Runs the stored cases, each as long as the buffer for it, and prints their count. `agrees` takes what a case has behind it in the file.
pub fn run<R: Files + Print, F: Fn(&mut R::File, &[u8]) -> bool>(
    rt: &R,
    case: &mut [u8],
    agrees: F,
) -> io::Result<()>
    requires { (file : _) (read : _) → length read.now ≡ length case.old → F.pre agrees file read }
    ensures { Unit {0} }
{
    let size = case.len();
    let mut cases = stored(rt)?;
    let mut tally = Tally::default();
    for _ in 0..100000usize {
        if reading::read_full(&mut cases, case) != Ok(size) {
            break;
        }
        tally = counted(tally, agrees(&mut cases, case));
    }
    print(rt, tally)
}

// Whether a call agrees on a buffer, and leaves in it the bytes that the file has next.
fn agrees_on<R: Read, F: FnOnce(&mut [u8]) -> bool>(
    stored: &mut R,
    buffer: &mut [u8],
    expected: &mut [u8],
    call: F,
) -> bool
    requires { F.IsAlwaysCallable call }
    ensures { result ≡ true → FnOnceReturnsAtMut F.FnOnce call buffer.old true buffer.new }
{
    let size = expected.len();
    if reading::read_full(stored, expected) != Ok(size) {
        return false;
    }
    let agrees = call(buffer);
    agrees && *buffer == *expected
}

// The longest buffer of a case.
const LONGEST: usize = 1024;

// Whether a call agrees on a buffer of this room, every byte of it 170, and leaves in it the bytes that the file has next.
pub fn agrees_in_room<R: Read, F: FnOnce(&mut [u8]) -> bool>(
    stored: &mut R,
    room: usize,
    call: F,
) -> bool
    requires { F.IsAlwaysCallable call }
    ensures fits { result ≡ true → room ≤ 1024 }
    ensures agrees { result ≡ true → (after : _) × FnOnceReturnsAtMut F.FnOnce call (replicate room 170) true after }
{
    if LONGEST < room {
        return false;
    }
    let mut buffer = [170u8; LONGEST];
    let mut expected = [0u8; LONGEST];
    agrees_on(stored, &mut buffer[..room], &mut expected[..room], call)
}

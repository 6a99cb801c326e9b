// Stored runs of fault files, held piece by piece against the simulation's text: see tests/make_vectors.py for the layout of a case.
#![tactic(auto)]

ghost use Rattle.std.specs.Prelude.{◌≡◌, ◌≤◌, ◌<◌, length};
ghost use Rattle.model.specs.Text.{line_room};

use std::io;
use std::io::Read;

// Whether the next stored bytes are ours.
fn next_is<R: Read>(stored: &mut R, ours: &[u8], expected: &mut [u8]) -> bool
    requires { length ours.now ≤ length expected.old }
{
    let size = ours.len();
    let expected = &mut expected[..size];
    reading::read_full(stored, expected) == Ok(size) && *ours == *expected
}

// Whether the run of a file is the stored one.
fn run_agrees<R: Read>(stored: &mut R, file: &[u8], out: &mut [u8], expected: &mut [u8]) -> bool
    requires { (line_room ≤ length out.old) × (length out.old ≡ length expected.old) }
{
    let mut cursor = run::begin();
    let mut more = true;
    let mut same = true;
    while more {
        let piece = run::fill(cursor, file, out);
        let length = piece.length;
        same &= next_is(stored, &out[..length], expected);
        cursor = piece.cursor;
        more = piece.more;
    }
    same
}

// A case: the file, and behind it the text. A text that is longer or shorter than ours is found by the mark behind it.
fn agrees<R: Read>(stored: &mut R, size: usize) -> bool
    requires { size < 65536 }
{
    let mut file = [0u8; 65536];
    let mut out = [0u8; 65536];
    let mut expected = [0u8; 65536];
    let mut mark = [0u8; 1];
    let got = reading::read_full(stored, &mut file[..size]);
    let same = run_agrees(stored, &file[..size], &mut out, &mut expected);
    let marked = reading::read_full(stored, &mut mark) == Ok(1);
    got == Ok(size) && same && marked && mark[0] == 0
}

fn main(rt: HostRuntime) -> io::Result<()> {
    tally::run(&rt, &mut [0u8; 2], |stored, size| {
        agrees(stored, u16::from_le_bytes([size[0], size[1]]) as usize)
    })
}

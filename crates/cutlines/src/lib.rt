// The text of a bus's minimal cut sets, from the bytes of their sheet (document 02, Note 1): "a two-byte count, low byte first, then
// three bytes a set, rising, with 255 for unused". Sets are counted from 0. An `append_` function stores its text from `at` on and
// answers the place behind it.
#![tactic(auto)]

ghost use Rattle.std.specs.Prelude.{◌+◌, ◌*◌, ◌<◌, ◌≤◌, length};
ghost use Rattle.model.specs.CutText.{count_line};
ghost use Rattle.model.specs.Laws.Appended.{Appended};
ghost use Rattle.cutlines.specs.Sets.{name_before, bytes_line, lines_of, text_of};

use appending::append;
use numbers::{append_large, append_marked};
use operations::append_part;

// The name of a code's part, and a space behind it: a line feed where the next code is unused.
fn append_before(code: u8, next: u8, out: &mut [u8], at: usize) -> usize
    requires { at + 5 ≤ length out.old }
    ensures { Appended (name_before code next) out.old at out.new result }
{
    if next == 255 {
        return append_part(code, b'\n', out, at);
    }
    append_part(code, b' ', out, at)
}

// A set's line, as `G1 GB2 BB3`, from its three bytes, and as `-` where it has no part.
fn append_set(a: u8, b: u8, c: u8, out: &mut [u8], at: usize) -> usize
    requires { at + 15 ≤ length out.old }
    ensures { Appended (bytes_line a b c) out.old at out.new result }
{
    if a == 255 {
        return append(b"-\n", out, at);
    }
    let second = append_before(a, b, out, at);
    if b == 255 {
        return second;
    }
    let third = append_before(b, c, out, second);
    if c == 255 {
        return third;
    }
    append_before(c, 255, out, third)
}

// The lines of the first `count` sets of a sheet.
fn append_sets(count: usize, sheet: &[u8], out: &mut [u8], at: usize) -> usize
    requires { (2 + 3 * count ≤ length sheet.now) × (at + 15 * count ≤ length out.old) }
    ensures { Appended (lines_of sheet.now count) out.old at out.new result }
{
    let mut end = at;
    for set in sheet[2..2 + 3 * count].chunks_exact(3) {
        end = append_set(set[0], set[1], set[2], out, end);
    }
    end
}

// A bus's line, as `B3 10`: its number and how many sets it has.
fn append_count(bus: u8, count: usize, out: &mut [u8], at: usize) -> usize
    requires { (bus < 100) × (count < 100000) × (at + 10 ≤ length out.old) }
    ensures { Appended (count_line bus count) out.old at out.new result }
{
    out[at] = b'B';
    let number = append_marked(bus, b' ', out, at + 1);
    let end = append_large(count, out, number);
    out[end] = b'\n';
    end + 1
}

// A bus's line, then a line a set, in the front of a lent buffer: the length of this text. An inner call: its callers know how many
// sets stand in the sheet, and that there is room.
pub fn text(bus: u8, count: usize, sheet: &[u8], out: &mut [u8]) -> usize
    requires { (bus < 100) × (count < 100000) × (2 + 3 * count ≤ length sheet.now)
        × (10 + 15 * count ≤ length out.old) }
    ensures { Appended (text_of bus count sheet.now) out.old 0 out.new result }
{
    let sets = append_count(bus, count, out, 0);
    append_sets(count, sheet, out, sets)
}

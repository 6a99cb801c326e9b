// Scans for a class: reads n, then scans of 193 bytes each, a count and 64 places of three bytes (a part's kind and number, and a word),
// and prints the start's line and the text of each scan. What it prints is proved in `calls` and `heads`.
#![tactic(auto)]

ghost use Rattle.std.specs.Prelude.{◌≡◌, false, ◌≤◌, length};
ghost use Rattle.model.specs.Refusals.{bad_ring};
ghost use Rattle.model.specs.Text.{line_room};

use model::{Refusal, Ring};
use reading::Failed;
use std::io;
use std::io::Read;

// Prints the text of each scan, which gets the ring that the call before it gave. A line's
// number has at most four digits, so that a ring is handed at most 9999 scans.
fn print_scans<R: Read>(
    rt: &(impl Print + Eprint),
    source: &mut R,
    started: Ring,
    out: &mut [u8],
) -> io::Result<()>
    requires { (bad_ring started ≡ false) × (line_room ≤ length out.old) }
{
    let mut ring = started;
    for i in 1..10000usize {
        let mut case = [0u8; 193];
        match reading::read_full(source, &mut case) {
            Ok(193) => {}
            Ok(0) | Err(Failed { size: 0 }) => break,
            _ => {
                let _ = rt.eprintln("ringscan: the last scan is broken off");
                break;
            }
        }
        let line = calls::scan_text(ring, answers::scan_at(&case, 0), i, out);
        let length = line.length;
        rt.write_all(&out[..length])?;
        ring = line.ring;
    }
    Ok(())
}

// Prints the start's line and the scans', or the refusal of n.
fn print_ring<R: Read>(
    rt: &(impl Print + Eprint),
    source: &mut R,
    n: u8,
    out: &mut [u8],
) -> io::Result<()>
    requires { line_room ≤ length out.old }
{
    if components::size_outside(n) {
        let length = heads::refused_text(words::refusal_number(Refusal::SizeOutside), out);
        return rt.write_all(&out[..length]);
    }
    let line = calls::start_line(n, out);
    let length = line.length;
    let ring = line.ring;
    rt.write_all(&out[..length])?;
    print_scans(rt, source, ring, out)
}

fn main(rt: HostRuntime) {
    let mut first = [0u8; 1];
    let mut stdin = rt.stdin();
    if reading::read_full(&mut stdin, &mut first) != Ok(1) {
        let _ = rt.eprintln("ringscan: standard input is empty");
        return;
    }
    let mut out = [0u8; 553];
    if print_ring(&rt, &mut stdin, first[0], &mut out).is_err() {
        let _ = rt.eprintln("ringscan: standard output cannot be written");
    }
}

// The line of a served call, or a scan's refusal, with the ring behind it. Lines are counted from 0, the start's.
#![tactic(auto)]

ghost use Rattle.std.specs.Prelude.{◌≡◌, false, ◌<◌, ◌≤◌, length};
ghost use Rattle.model.specs.Reports.{blank_ring, told};
ghost use Rattle.model.specs.Refusals.{first_met, report_conditions, bad_ring};
ghost use Rattle.model.specs.Text.{line_room};
ghost use Rattle.calls.specs.Lines.{Shown, Answered};

use model::{Report, Ring, Scan};

// A line in the front of a lent buffer: the ring behind it, and its length.
#[derive(Clone, Copy)]
pub struct Line {
    pub ring: Ring,
    pub length: usize,
}

// Line 0, for the start.
pub fn start_line(n: u8, out: &mut [u8]) -> Line
    requires { (3 ≤ n) × (n ≤ 20) × (line_room ≤ length out.old) }
    ensures { Shown 0 (blank_ring n) out.old out.new result.ring result.length }
{
    let mut sheet = [0u8; 122];
    let answer = transition::start(n, &mut sheet);
    let choices = answer.choices;
    let ring = answer.ring;
    let length = lines::sheet_line(0, n, choices, &sheet, out);
    Line { ring, length }
}

// Line i, of a report that is not refused.
pub fn step_line(ring: Ring, report: Report, i: usize, out: &mut [u8]) -> Line
    requires { (bad_ring ring ≡ false) × (first_met (report_conditions ring.n report) ≡ 0)
        × (i < 10000) × (line_room ≤ length out.old) }
    ensures { Shown i (told ring report) out.old out.new result.ring result.length }
{
    let mut sheet = [0u8; 122];
    let n = ring.n;
    let answer = transition::step(ring, report, &mut sheet);
    let choices = answer.choices;
    let ring = answer.ring;
    let length = lines::sheet_line(i, n, choices, &sheet, out);
    Line { ring, length }
}

// The text of a scan: line i, or its refusal.
pub fn scan_text(ring: Ring, scan: Scan, i: usize, out: &mut [u8]) -> Line
    requires { (bad_ring ring ≡ false) × (i < 10000) × (line_room ≤ length out.old) }
    ensures { Answered i ring scan out.old out.new result.ring result.length }
{
    let mut sheet = [0u8; 122];
    let n = ring.n;
    let answer = transition::scan(ring, scan, &mut sheet);
    let outcome = answer.outcome;
    let choices = answer.choices;
    let ring = answer.ring;
    match outcome {
        Ok(()) => {
            let length = lines::sheet_line(i, n, choices, &sheet, out);
            Line { ring, length }
        }
        Err(refusal) => {
            let length = heads::refused_text(words::refusal_number(refusal), out);
            Line { ring, length }
        }
    }
}

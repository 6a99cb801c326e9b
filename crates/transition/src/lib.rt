// The inner start, step and scan, for callers that hold a ring made by start, steps and scans: what they switch does not depend on load.
#![tactic(auto)]

ghost use Rattle.std.specs.Prelude.{◌≡◌, false, ◌≤◌, length};
ghost use Rattle.model.specs.Values.{outcome_number, choice_values};
ghost use Rattle.model.specs.Reports.{blank_ring, told as told_ring};
ghost use Rattle.model.specs.Refusals.{bad_ring, next_sheet, sheet_refusal, start_refusal, step_refusal};
ghost use Rattle.model.specs.Answers.{reply_by, start_reply, step_reply, call_values};
ghost use Rattle.model.specs.Scans.{scan_reports, told_all, scan_refusal, scan_reply};

use model::{Refusal, Report, Ring, RingAnswer, Scan};

// A ring that was told its reports, taken to the commands that its health and locks call for: "gives the new record, each bus's choice and
// the sheet", or the ring kept where 8 refuses.
fn advance(ring: Ring, kept: Ring, buffer: &mut [u8]) -> RingAnswer
    requires { (3 ≤ ring.n) × (ring.n ≤ 20) }
    ensures answer { result ≡ (reply_by (sheet_refusal (length buffer.old) (next_sheet ring)) ring kept buffer.old).answer }
    ensures bytes { buffer.new ≡ (reply_by (sheet_refusal (length buffer.old) (next_sheet ring)) ring kept buffer.old).buffer }
    ensures number { outcome_number result.outcome ≡ sheet_refusal (length buffer.old) (next_sheet ring) }
    ensures values { choice_values result.choices ≡ call_values (sheet_refusal (length buffer.old) (next_sheet ring)) ring }
{
    let planned = planner::plan(ring.n, ring.health);
    let old = ring.commands;
    let new = planned.commands;
    let choices = planned.choices;
    let mut next = ring;
    next.commands = new;
    match sheet::write(ring.n, old, new, choices, buffer) {
        Ok(()) => RingAnswer {
            outcome: Ok(()),
            ring: next,
            choices,
        },
        Err(refusal) => rings::refused_by(refusal, kept),
    }
}

// "Starting a ring takes n and gives the record with all parts fit, each bus's choice and the sheet of its first orders." "A refused
// start has a record with n = 0 and every part fit and ordered off or open." An inner call: n is from 3 to 20, which its callers have
// checked.
pub fn start(n: u8, buffer: &mut [u8]) -> RingAnswer
    requires { (3 ≤ n) × (n ≤ 20) }
    ensures answer { result ≡ (start_reply n buffer.old).answer }
    ensures bytes { buffer.new ≡ (start_reply n buffer.old).buffer }
    ensures number { outcome_number result.outcome ≡ start_refusal n (length buffer.old) }
    ensures values { choice_values result.choices ≡ call_values (start_refusal n (length buffer.old)) (blank_ring n) }
{
    advance(rings::blank(n), rings::blank(0), buffer)
}

// "A step takes a record and a report, and gives the new record, each bus's choice and the sheet." An inner call: refusal 9 does not
// meet the ring, which start, steps and scans made or its callers have checked.
pub fn step(ring: Ring, report: Report, buffer: &mut [u8]) -> RingAnswer
    requires { bad_ring ring ≡ false }
    ensures answer { result ≡ (step_reply ring report buffer.old).answer }
    ensures bytes { buffer.new ≡ (step_reply ring report buffer.old).buffer }
    ensures number { outcome_number result.outcome ≡ step_refusal ring report (length buffer.old) }
    ensures values { choice_values result.choices ≡ call_values (step_refusal ring report (length buffer.old)) (told_ring ring report) }
{
    // 5 and 6 come before the plan, and so before 8.
    match reports::check_report(ring.n, report) {
        Ok(()) => advance(rings::told(ring, report), ring, buffer),
        Err(refusal) => rings::refused_by(refusal, ring),
    }
}

// "The record and choices must be those that single steps would end with, and the sheet goes straight from the first standing orders to
// the last.": told all its reports, the ring is planned once. An inner call: refusal 9 does not meet the ring, which start, steps
// and scans made or its callers have checked.
pub fn scan(ring: Ring, scan: Scan, buffer: &mut [u8]) -> RingAnswer
    requires { bad_ring ring ≡ false }
    ensures answer { result ≡ (scan_reply ring scan buffer.old).answer }
    ensures bytes { buffer.new ≡ (scan_reply ring scan buffer.old).buffer }
    ensures number { outcome_number result.outcome ≡ scan_refusal ring scan (length buffer.old) }
    ensures values { choice_values result.choices ≡ call_values (scan_refusal ring scan (length buffer.old)) (told_all ring (scan_reports scan)) }
{
    // "11 for a count above 64, after 9 and before the reports".
    if 64 < scan.count {
        return rings::refused_by(Refusal::CountAbove, ring);
    }
    // "8 is checked last, for the scan's own sheet": the reports are checked before the plan.
    match scans::check(ring.n, scan) {
        Ok(()) => {
            let told = scans::told(ring, scan);
            advance(told, ring, buffer)
        }
        Err(refusal) => rings::refused_by(refusal, ring),
    }
}

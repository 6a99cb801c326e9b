// The reports of a scan (document 02, Note 2: "Several reports from one scan"), one after the other. Reports are counted from 0.
#![tactic(auto)]

ghost use Rattle.std.specs.Prelude.{◌≡◌, ◌≤◌};
ghost use Rattle.model.specs.Values.{outcome_of, outcome_number};
ghost use Rattle.model.specs.Scans.{scan_reports, told_all, first_refusal};

use model::{Refusal, Ring, Scan};

// "The first bad report refuses the scan with the refusal that report alone would get": no later one is looked at, and "places past the
// count are not read". An inner call: the count is at most 64, which its callers have checked.
pub fn check(n: u8, scan: Scan) -> Result<(), Refusal>
    requires { scan.count ≤ 64 }
    ensures answer { result ≡ outcome_of (first_refusal n (scan_reports scan)) }
    ensures number { outcome_number result ≡ first_refusal n (scan_reports scan) }
{
    let count = scan.count as usize;
    for report in &scan.reports[..count] {
        reports::check_report(n, *report)?;
    }
    Ok(())
}

// A ring told every report of a scan, first to last, before any command: "The record and choices must be those that single steps would
// end with", and of two reports on one part the last word decides. An inner call: the count is at most 64, which its callers have checked.
pub fn told(ring: Ring, scan: Scan) -> Ring
    requires { scan.count ≤ 64 }
    ensures { result ≡ told_all ring (scan_reports scan) }
{
    let end = scan.count as usize;
    let mut next = ring;
    for report in &scan.reports[..end] {
        next = rings::told(next, *report);
    }
    next
}

// The ring after a fault file's last report: told every report, and planned once. Reports are counted from 0.
#![tactic(auto)]

ghost use Rattle.std.specs.Prelude.{◌≡◌, ◌≤◌, length};
ghost use Rattle.model.specs.Values.{outcome_of, outcome_number};
ghost use Rattle.model.specs.Reports.{with_plan};
ghost use Rattle.model.specs.Refusals.{file_refusal};
ghost use Rattle.model.specs.Answers.{file_answer};
ghost use Rattle.model.specs.Text.{told_answer};
ghost use Rattle.model.specs.CutText.{latest_ring};
ghost use Rattle.latest.specs.Told.{told_reports, told_file};

use model::{FileHead, LatestAnswer, Refusal, Report, Ring};

// A ring told the report of an answer, if it is one.
#[tactic(auto, unfolding(model::specs::Text::told_answer))]
fn told_answer(ring: Ring, answer: Result<Option<Report>, Refusal>) -> Ring
    ensures { result ≡ told_answer ring answer }
{
    match answer {
        Ok(Some(report)) => rings::told(ring, report),
        Ok(None) | Err(_) => ring,
    }
}

// A blank ring of n told the reports of a file's part codes and words, first to last.
fn told_all(n: u8, codes: &[u8], words: &[u8]) -> Ring
    ensures { result ≡ told_reports n codes.now words.now (length codes.now) }
{
    let mut ring = rings::blank(n);
    // kept: `reports::report_at` answers by a report's place, and the words may be fewer than the codes
    for i in 0..codes.len() {
        let answer = reports::report_at(n, codes, words, i);
        ring = told_answer(ring, answer);
    }
    ring
}

// A blank ring told the reports of a file that is served, by its head. "Each array is handed on as that stretch of the file, without a copy."; a file
// of no bytes (document 02, Note 9) is both of its stretches.
fn told_file(head: FileHead, file: &[u8]) -> Ring
    requires { file_answer file.now ≡ Ok head }
    ensures { result ≡ told_file file.now }
{
    let FileHead { n, m } = head;
    if file.len() == 0 {
        return told_all(n, file, file);
    }
    told_all(n, &file[3..3 + m], &file[3 + m..])
}

// A ring with the commands that its health and locks call for.
fn planned(ring: Ring) -> Ring
    requires { (3 ≤ ring.n) × (ring.n ≤ 20) }
    ensures { result ≡ with_plan ring }
{
    let plan = planner::plan(ring.n, ring.health);
    let commands = plan.commands;
    let mut next = ring;
    next.commands = commands;
    next
}

// The ring after a file's last report; that of a refused start where the file is refused.
pub fn ring_after(file: &[u8]) -> LatestAnswer
    ensures answer { result.outcome ≡ outcome_of (file_refusal file.now) }
    ensures number { outcome_number result.outcome ≡ file_refusal file.now }
    ensures ring { result.ring ≡ latest_ring file.now }
{
    match files::check_file(file) {
        Err(refusal) => LatestAnswer {
            outcome: Err(refusal),
            ring: rings::blank(0),
        },
        Ok(head) => LatestAnswer {
            outcome: Ok(()),
            ring: planned(told_file(head, file)),
        },
    }
}

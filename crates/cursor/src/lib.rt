// The line of a run at a cursor, and the cursor behind it, with the ring there. Places and reports are counted from 0.
#![tactic(auto)]

ghost use Rattle.std.specs.Prelude.{◌≡◌, ◌+◌, ◌<◌, ◌≤◌, length};
ghost use Rattle.model.specs.Reports.{file_count, with_plan};
ghost use Rattle.model.specs.Refusals.{file_refusal};
ghost use Rattle.model.specs.Text.{run_ring, ring_at, Within, line_room};
ghost use Rattle.calls.specs.Lines.{Shown};
ghost use Rattle.cursor.specs.Passed.{Passed};

use calls::Line;
use model::{Ring, RunCursor, RunPiece};

// The number m of the reports of a file that is served, by its length: 3 + 2m bytes, or none "without reports" (document 02, Note 9).
fn report_count(file: &[u8]) -> usize
    requires { file_refusal file.now ≡ 0 }
    ensures { result ≡ file_count file.now }
{
    if file.len() == 0 {
        return 0;
    }
    (file.len() - 3) / 2
}

// The line of report i, counted from 0, of a file that is served: none of its reports is refused or missing.
fn report_line(ring: Ring, file: &[u8], i: usize, out: &mut [u8]) -> Line
    requires { (file_refusal file.now ≡ 0) × (i < file_count file.now)
        × (ring ≡ with_plan (run_ring file.now i)) × (line_room ≤ length out.old) }
    ensures { Shown (i + 1) (run_ring file.now (i + 1)) out.old out.new result.ring result.length }
{
    let m = report_count(file);
    match reports::report_at(ring.n, &file[3..3 + m], &file[3 + m..], i) {
        Ok(Some(report)) => calls::step_line(ring, report, i + 1, out),
        Ok(None) => Line { ring, length: 0 },
        Err(_) => Line { ring, length: 0 },
    }
}

// A line as a piece of the run: the cursor behind it, and whether more follows.
fn piece_of(line: Line, place: usize, more: bool) -> RunPiece
    ensures { result ≡ record { cursor = record { place = place; ring = line.ring }; length = line.length; more = more } }
{
    let ring = line.ring;
    RunPiece {
        cursor: RunCursor { place, ring },
        length: line.length,
        more,
    }
}

// The first line of a run: the refusal, or the header.
fn first_line(ring: Ring, file: &[u8], out: &mut [u8]) -> RunPiece
    requires { (ring ≡ ring_at file.now 0) × (line_room ≤ length out.old) }
    ensures { Passed file.now 0 out.old out.new result }
{
    match files::check_file(file) {
        Err(refusal) => {
            let length = heads::refused_text(words::refusal_number(refusal), out);
            piece_of(Line { ring, length }, 1, false)
        }
        Ok(head) => {
            let length = heads::header(head.n, head.m, out);
            piece_of(Line { ring, length }, 1, true)
        }
    }
}

// The line at a cursor.
pub fn next_line(cursor: RunCursor, file: &[u8], out: &mut [u8]) -> RunPiece
    requires { Within file.now cursor × (line_room ≤ length out.old) }
    ensures { Passed file.now cursor.place out.old out.new result }
{
    let place = cursor.place;
    let ring = cursor.ring;
    if place == 0 {
        return first_line(ring, file, out);
    }
    let lines = report_count(file) + 2;
    let next = place + 1;
    if place == 1 {
        let line = calls::start_line(files::bus_count(file), out);
        return piece_of(line, next, next < lines);
    }
    let line = report_line(ring, file, place - 2, out);
    piece_of(line, next, next < lines)
}

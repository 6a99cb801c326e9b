// The printed run of a fault file (document 01, "The printed run") as bytes in a lent buffer, piece by piece. Places are
// counted from 0.
#![tactic(auto)]

ghost use Rattle.std.specs.Prelude.{◌≡◌, List, ◌++◌, ℕ, ◌<◌, ◌≤◌, ltb, length, take, drop};
ghost use Rattle.model.specs.Reports.{blank_ring};
ghost use Rattle.model.specs.Text.{run_lines, printed_run, run_left, cursor_at, Within, line_room};

use model::{RunCursor, RunPiece};

// Room for the longest line.
const ROOM: usize = 553;

// The cursor at the beginning of every run.
pub fn begin() -> RunCursor
    ensures cursor { result ≡ record { place = 0; ring = blank_ring 0 } }
    ensures run { (f : List ℕ) → Within f result × (run_left f result.place ≡ printed_run f) }
{
    let ring = rings::blank(0);
    RunCursor { place: 0, ring }
}

// The next lines of a file's run in the front of a buffer: as many as are sure to have room, at least one.
pub fn fill(first: RunCursor, file: &[u8], out: &mut [u8]) -> RunPiece
    requires cursor { Within file.now first }
    requires room { line_room ≤ length out.old }
    ensures run { run_left file.now first.place ≡ take result.length out.new ++ run_left file.now result.cursor.place }
    ensures kept { drop result.length out.new ≡ drop result.length out.old }
    ensures length { (0 < result.length) × (result.length ≤ length out.new) }
    ensures cursor { result.cursor ≡ cursor_at file.now result.cursor.place }
    ensures more { result.more ≡ ltb result.cursor.place (length (run_lines file.now)) }
{
    let mut cursor = first;
    let mut length = 0;
    let mut more = true;
    while more && ROOM <= out.len() - length {
        let line = cursor::next_line(cursor, file, &mut out[length..]);
        cursor = line.cursor;
        length += line.length;
        more = line.more;
    }
    RunPiece {
        cursor,
        length,
        more,
    }
}

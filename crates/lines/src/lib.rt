// A call's line of a printed run (document 01, "The printed run") in the front of a lent buffer, from its choices and its command
// sheet. An `append_` function stores its text from `at` on and answers the place behind it.
#![tactic(auto)]

ghost use Rattle.std.specs.Prelude.{◌≡◌, ◌++◌, ◌+◌, ◌*◌, ◌<◌, ◌≤◌, length};
ghost use Rattle.model.specs.Sheet.{written};
ghost use Rattle.model.specs.Text.{line_room};
ghost use Rattle.model.specs.Laws.Appended.{Appended};
ghost use Rattle.buses.specs.Buses.{AllNamed};
ghost use Rattle.lines.specs.SheetLine.{opening_text, closing_text, opening_size, closing_size, sheet_line, SheetBytes};

use buses::append_buses;
use model::BusChoice;
use numbers::append_number;
use operations::append_phase;

// "the first wave; the second.": a sheet has its sizes, then the codes of both phases, then their commands.
fn append_phases(sheet: &[u8], out: &mut [u8], at: usize) -> usize
    requires { SheetBytes sheet.now × (at + 8 + 6 * (opening_size sheet.now + closing_size sheet.now) ≤ length out.old) }
    ensures { Appended (opening_text sheet.now ++ closing_text sheet.now)
        out.old at out.new result }
{
    let opened = sheet[0] as usize;
    let closed = sheet[1] as usize;
    let closing = 2 + opened;
    let commands = closing + closed;
    let closing_commands = commands + opened;
    let all = closing_commands + closed;
    let end = append_phase(
        &sheet[2..closing],
        &sheet[commands..closing_commands],
        out,
        at,
    );
    append_phase(
        &sheet[closing..commands],
        &sheet[closing_commands..all],
        out,
        end,
    )
}

// "a line per report: its number; each bus ..; the first wave; the second." The phases are those of the command sheet's bytes.
pub fn sheet_line(i: usize, n: u8, choices: [BusChoice; 20], sheet: &[u8], out: &mut [u8]) -> usize
    requires { (i < 10000) × (0 < n) × (n ≤ 20) × AllNamed n choices × SheetBytes sheet.now × (line_room ≤ length out.old) }
    ensures bytes { out.new ≡ written (sheet_line i n choices sheet.now) out.old }
    ensures end { result ≡ length (sheet_line i n choices sheet.now) }
{
    let buses = append_number(i, out, 0);
    let phases = append_buses(n as usize, choices, out, buses);
    let feed = append_phases(sheet, out, phases);
    out[feed] = b'\n';
    feed + 1
}

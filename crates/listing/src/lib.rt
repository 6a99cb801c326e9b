// The minimal cut sets of a bus of a ring state as text in a lent buffer: its line, as `B3 10`, then a line a set. Buses are numbers,
// from 1.
#![tactic(auto)]

ghost use Rattle.std.specs.Prelude.{◌≡◌, ◌≤◌, length};
ghost use Rattle.model.specs.Sheet.{written};
ghost use Rattle.model.specs.States.{unloaded};
ghost use Rattle.model.specs.CutSets.{cut_sets_reply};
ghost use Rattle.model.specs.CutText.{sheet_room, text_room, bus_cut_text};

use model::{Ring, RingState};

// The text of a bus of a ring without bookings in the front of a buffer, and its length: none where the ring or the bus is refused. The
// sheet goes into a buffer of its own, which is lent too, so that it need not be cleared for each bus.
pub fn bus_text(ring: Ring, bus: u8, sheet: &mut [u8], out: &mut [u8]) -> usize
    requires sheet { length sheet.old ≡ sheet_room }
    requires room { text_room ≤ length out.old }
    ensures bytes { out.new ≡ written (bus_cut_text ring bus) out.old }
    ensures end { result ≡ length (bus_cut_text ring bus) }
    ensures within { result ≤ length out.new }
    ensures sheet { sheet.new ≡ (cut_sets_reply (unloaded ring) bus sheet.old).buffer }
{
    let load = rings::no_load();
    let state = RingState { ring, load };
    let answer = cutsets::list(state, bus, sheet);
    let count = answer.count as usize;
    match answer.outcome {
        Ok(()) => cutlines::text(bus, count, sheet, out),
        Err(_) => 0,
    }
}

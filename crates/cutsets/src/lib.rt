// The minimal cut sets of a bus (document 02, Note 1, "Which further faults darken a studio"): the API for any ring state, any bus and any
// buffer. The call's bus is a number, from 1; buses and places are indices from 0 elsewhere.
#![tactic(auto)]

ghost use Rattle.std.specs.Prelude.{◌≡◌, ℕ, ◌+◌, ◌*◌, ◌≤◌, ◌<◌, length, take};
ghost use mathlib.Core.List.{List, flat_map};
ghost use Rattle.model.specs.Values.{refusal_number, outcome_number};
ghost use Rattle.model.specs.Reports.{health_of};
ghost use Rattle.model.specs.Sheet.{written};
ghost use Rattle.model.specs.CutSets.{set_bytes, cut_sets, cut_sets_refusal, refused_cut_sets, cut_sets_reply};
ghost use Rattle.model.specs.Laws.Appended.{Appended};
ghost use Rattle.cutsets.specs.Search.{most, Searching, Stored};
ghost use Rattle.cutsets.specs.Sheet.{headed, sheet_reply};

use model::{CutSetsAnswer, Health, Refusal, RingState};
use partsets::PartSet;

// Room for all sets of at most three of sixty parts: there are 36,051.
const ROOM: usize = 108153;

// "The search takes a next part, with the faults left to spend falling, or passes it by with fewer parts left.": parts left plus faults left
// fall at each call. Stores, behind the first k, the sets that count of the parts held and `faults` more of the `parts` that are left from
// place p on, and answers how many there are then.
fn search(
    n: usize,
    health: Health,
    b: usize,
    set: PartSet,
    p: usize,
    parts: usize,
    faults: usize,
    buffer: &mut [u8],
    k: usize,
) -> usize
    requires { Searching n b set p parts faults × (3 * (k + most parts faults) ≤ length buffer.old) }
    ensures { Stored n (health_of health) b set p faults buffer.old k buffer.new result }
{
    if faults == 0 {
        if partsets::is_minimal(n, health, b, set) {
            partsets::put(n, set, buffer, k);
            return k + 1;
        }
        return k;
    }
    if parts == 0 {
        return k;
    }
    if partsets::hopeless(n, health, b, set, faults) {
        return k;
    }
    if faults::matters(n, health, p) {
        let more = partsets::with_place(set, p);
        let taken = search(n, health, b, more, p + 1, parts - 1, faults - 1, buffer, k);
        return search(n, health, b, set, p + 1, parts - 1, faults, buffer, taken);
    }
    search(n, health, b, set, p + 1, parts - 1, faults, buffer, k)
}

// "Each set is listed once, by size, then by part codes.": stores the sets of each size, one size after the other, and answers how many
// there are.
fn search_sizes(n: usize, health: Health, b: usize, buffer: &mut [u8]) -> usize
    requires { (b < n) × (n ≤ 20) × (108153 ≤ length buffer.old) }
    ensures stored { Appended (flat_map set_bytes (cut_sets n (health_of health) b)) buffer.old 0 buffer.new (3 * result) }
    ensures few { result ≤ 36051 }
{
    let none = partsets::empty();
    let parts = 3 * n;
    let mut k = 0usize;
    for faults in 0..4 {
        k = search(n, health, b, none, 0, parts, faults, buffer, k);
    }
    k
}

// "The sheet has a two-byte count, low byte first, then three bytes a set".
fn write_sheet(bytes: &[u8], count: usize, buffer: &mut [u8])
    requires { (count ≤ 36051) × (3 * count ≤ length bytes.now) × (2 + 3 * count ≤ length buffer.old) }
    ensures { buffer.new ≡ written (headed count (take (3 * count) bytes.now)) buffer.old }
{
    let end = 3 * count;
    let number = (count as u16).to_le_bytes();
    let behind = appending::append(&number, buffer, 0);
    appending::append(&bytes[..end], buffer, behind);
}

// "Each has its number as the answer", and "any figure beside the record 0".
fn refused(refusal: Refusal) -> CutSetsAnswer
    ensures { (buffer : List ℕ) → result ≡ (refused_cut_sets (refusal_number refusal) buffer).answer }
{
    CutSetsAnswer {
        outcome: Err(refusal),
        count: 0,
    }
}

// The sets of a bus in the lent buffer, or refusal 8. They are found in a buffer of our own first: a refused call leaves the lent one
// untouched.
fn listed(n: usize, health: Health, b: usize, buffer: &mut [u8]) -> CutSetsAnswer
    requires { (b < n) × (n ≤ 20) }
    ensures answer { result ≡ (sheet_reply (cut_sets n (health_of health) b) buffer.old).answer }
    ensures bytes { buffer.new ≡ (sheet_reply (cut_sets n (health_of health) b) buffer.old).buffer }
{
    let mut found = [0u8; ROOM];
    let count = search_sizes(n, health, b, &mut found);
    if buffer.len() < 2 + 3 * count {
        return refused(Refusal::BufferShort);
    }
    write_sheet(&found, count, buffer);
    CutSetsAnswer {
        outcome: Ok(()),
        count: count as u16,
    }
}

// "The planning desk wants, for a ring record and a bus, every smallest set of at most three further faults that leaves that bus dark."
// It checks 9, 10, 8.
pub fn list(state: RingState, bus: u8, buffer: &mut [u8]) -> CutSetsAnswer
    ensures answer { result ≡ (cut_sets_reply state bus buffer.old).answer }
    ensures bytes { buffer.new ≡ (cut_sets_reply state bus buffer.old).buffer }
    ensures number { outcome_number result.outcome ≡ cut_sets_refusal state bus (length buffer.old) }
{
    if records::bad_record(state) {
        return refused(Refusal::BadRecord);
    }
    let ring = state.ring;
    if components::bus_outside(ring.n, bus) {
        return refused(Refusal::BusOutside);
    }
    let n = ring.n as usize;
    let b = (bus - 1) as usize;
    let health = ring.health;
    listed(n, health, b, buffer)
}

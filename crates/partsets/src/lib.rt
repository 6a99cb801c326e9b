// A set of further faults (document 02, Note 1) that is being made, held by the places of its parts among those of the ring.
// Buses and places are indices from 0.
#![tactic(auto)]

ghost use Rattle.std.specs.Prelude.{◌≡◌, true, ◌+◌, ◌*◌, ◌≤◌, ◌<◌, map, length, get_or};
ghost use Rattle.model.specs.Reports.{health_of};
ghost use Rattle.model.specs.CutSets.{with_faults, minimal, set_bytes};
ghost use Rattle.model.specs.Laws.Appended.{Appended};
ghost use Rattle.faults.specs.Places.{part_at};
ghost use Rattle.partsets.specs.Sets.{Held, Inside, with_place, parts_of};
ghost use Rattle.partsets.specs.Minimal.{NoneCounts};

use model::Health;

// The places of its parts, rising, and how many there are: "at most three further faults".
#[derive(Clone, Copy)]
pub struct PartSet {
    pub places: [usize; 3],
    pub count: usize,
}

// The set of no part.
pub fn empty() -> PartSet
    ensures { result.count ≡ 0 }
{
    PartSet {
        places: [0usize; 3],
        count: 0,
    }
}

// The set with one part more.
pub fn with_place(set: PartSet, p: usize) -> PartSet
    requires { set.count < 3 }
    ensures { result ≡ with_place set p }
{
    let at = set.count;
    let mut more = set;
    more.places[at] = p;
    more.count = at + 1;
    more
}

// The health after the further faults of the parts at these places.
fn with_faults(n: usize, health: Health, places: &[usize]) -> Health
    requires { (n ≤ 20) × Inside n places.now }
    ensures { health_of result ≡ with_faults (health_of health) (map (part_at n) places.now) }
{
    let mut after = health;
    for place in places {
        after = faults::failed(n, after, *place);
    }
    after
}

// Whether no set of these and so many further parts counts for bus b: it takes more faults to leave the bus dark, or these do already.
pub fn hopeless(n: usize, health: Health, b: usize, set: PartSet, faults: usize) -> bool
    requires { (b < n) × (n ≤ 20) × Held n set }
    ensures { result ≡ true → NoneCounts n (health_of health) b (parts_of n set) faults }
{
    let count = set.count;
    let after = with_faults(n, health, &set.places[..count]);
    let least = outages::least_faults(n, after, b);
    if least == 0 {
        return 0 < faults;
    }
    faults < least
}

// "A set counts when no proper subset of it darkens the bus.": it is enough to leave out one part at a time.
pub fn is_minimal(n: usize, health: Health, b: usize, set: PartSet) -> bool
    requires { (b < n) × (n ≤ 20) × Held n set }
    ensures { result ≡ minimal n (health_of health) b (parts_of n set) }
{
    let count = set.count;
    let all = with_faults(n, health, &set.places[..count]);
    if !outages::is_dark(n, all, b) {
        return false;
    }
    for i in 0..count {
        let before = with_faults(n, health, &set.places[..i]);
        let others = with_faults(n, before, &set.places[i + 1..count]);
        if outages::is_dark(n, others, b) {
            return false;
        }
    }
    true
}

// A byte of a set: "rising, with 255 for unused".
fn byte_of(n: usize, set: PartSet, i: usize) -> u8
    requires { (i < 3) × (n ≤ 20) × Held n set }
    ensures { result ≡ get_or (set_bytes (parts_of n set)) i 0 }
{
    if i < set.count {
        return faults::code_at(n, set.places[i]);
    }
    255
}

// Stores the k-th set, from 0, at its place: "three bytes a set".
pub fn put(n: usize, set: PartSet, buffer: &mut [u8], k: usize)
    requires { (n ≤ 20) × Held n set × (3 * (k + 1) ≤ length buffer.old) }
    ensures { Appended (set_bytes (parts_of n set)) buffer.old (3 * k) buffer.new (3 * (k + 1)) }
{
    let at = 3 * k;
    let first = byte_of(n, set, 0);
    let second = byte_of(n, set, 1);
    let third = byte_of(n, set, 2);
    buffer[at] = first;
    buffer[at + 1] = second;
    buffer[at + 2] = third;
}

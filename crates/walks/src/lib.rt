// Walks round the ring, step by step: along the bus breakers of a path, and out from a bus while breakers count as closed.
// Buses and bus breakers are indices from 0; an owner is a generator's number, from 1, or 0 where there is none.
#![tactic(auto)]

ghost use Rattle.std.specs.Prelude.{◌≡◌, true, ◌||◌, ◌≤◌, ◌<◌};
ghost use Rattle.std.specs.Iterator.{YieldsFirst, item_count};
ghost use Rattle.model.specs.Plant.{stuck_closed, up as steps_up};
ghost use Rattle.walks.specs.Arrays.{at, set_all};
ghost use Rattle.walks.specs.Breakers.{breakers_left, OnRing};
ghost use Rattle.walks.specs.Walk.{free as may_connect, clear as clear_walk, previous as bus_before, breaker_beside, bus_beside, outward, closed_by, reach};

use model::{STUCK_CLOSED, STUCK_OPEN};

// The bus before bus k: "BBn joins Bn and B1".
fn previous(n: usize, k: usize) -> usize
    requires { (k < n) × (n ≤ 20) }
    ensures { result ≡ bus_before n k }
{
    if k == 0 { n - 1 } else { k - 1 }
}

// The number of steps from bus a to bus b through rising bus numbers.
pub fn up(n: usize, a: usize, b: usize) -> usize
    requires { (a < n) × (b < n) × (n ≤ 20) }
    ensures { result ≡ steps_up n a b }
{
    if a <= b { b - a } else { b + n - a }
}

// The bus breaker at bus k on its rising or its falling side.
pub fn breaker_beside(n: usize, k: usize, rising: bool) -> usize
    requires { (k < n) × (n ≤ 20) }
    ensures { result ≡ breaker_beside n rising k }
{
    if rising { k } else { previous(n, k) }
}

// The bus behind that breaker.
pub fn bus_beside(n: usize, k: usize, rising: bool) -> usize
    requires { (k < n) × (n ≤ 20) }
    ensures { result ≡ bus_beside n rising k }
{
    if rising {
        components::next(n, k)
    } else {
        previous(n, k)
    }
}

// Whether a bus of this owner may be connected to the generator of this number.
// kept: 0 for no owner, since the clauses of `clear`, `spread` and `paths::search` read the owners as numbers
pub fn free(owner: u8, number: u8) -> bool
    ensures { result ≡ may_connect owner number }
{
    if owner != 0 {
        return owner == number;
    }
    true
}

// Whether the walk of this many steps from a bus through rising bus numbers meets no bus breaker that is stuck open, and
// no bus, its ends among them, that is connected to another generator.
pub fn clear(
    n: usize,
    breakers: &[u8; 20],
    owners: &[u8; 20],
    number: u8,
    from: usize,
    steps: usize,
) -> bool
    requires { (from < n) × (n ≤ 20) }
    ensures { result ≡ clear_walk n (at breakers.now) (at owners.now) number from steps }
{
    let mut k = from;
    for _ in 0..steps {
        if breakers[k] == STUCK_OPEN {
            return false;
        }
        if !free(owners[k], number) {
            return false;
        }
        k = components::next(n, k);
    }
    free(owners[k], number)
}

// The bus breakers met from a bus on one side, one after the other: the bus reached, and how many are left.
#[derive(Drop)]
pub struct Outward {
    n: usize,
    bus: usize,
    rising: bool,
    left: usize,
}

impl Outward {
    // So many outward from bus k.
    pub fn new(n: usize, k: usize, rising: bool, steps: usize) -> Outward
        requires { (k < n) × (n ≤ 20) }
        ensures on_ring { OnRing result }
        ensures ahead { breakers_left result ≡ outward n rising k steps }
    {
        Outward {
            n,
            bus: k,
            rising,
            left: steps,
        }
    }
}

impl Iterator for Outward {
    type Item = usize;

    ghost can_next = { OnRing };

    ghost next_gives = { YieldsFirst breakers_left };

    ghost remaining = { item_count breakers_left };

    fn next(&mut self) -> Option<usize> {
        if self.left == 0 {
            return None;
        }
        let i = breaker_beside(self.n, self.bus, self.rising);
        self.bus = bus_beside(self.n, self.bus, self.rising);
        self.left -= 1;
        Some(i)
    }
}

// Sets the bus breakers of one path more, so many outward from its generator's bus, none for an own path, among those on chosen paths.
// In place, since a plan keeps one array from path to path.
pub fn close(n: usize, closed: &mut [bool; 20], g: usize, rising: bool, steps: usize)
    requires { (g < n) × (steps < n) × (n ≤ 20) }
    ensures { closed.new ≡ set_all true (outward n rising g steps) closed.old }
{
    for i in Outward::new(n, g, rising, steps) {
        closed[i] = true;
    }
}

// Whether a bus breaker counts as closed: it is stuck closed, or on a chosen path.
fn counted_closed(breaker: u8, chosen: bool) -> bool
    ensures { result ≡ stuck_closed breaker || chosen }
{
    if breaker == STUCK_CLOSED {
        return true;
    }
    chosen
}

// Gives this number to bus b and to those after it on one side while the breakers between count as closed: in place too.
pub fn spread(
    n: usize,
    breakers: &[u8; 20],
    closed: &[bool; 20],
    owners: &mut [u8; 20],
    b: usize,
    number: u8,
    rising: bool,
)
    requires { (b < n) × (n ≤ 20) }
    ensures { owners.new
        ≡ set_all number (reach n (closed_by (at breakers.now) closed.now) rising b n) owners.old }
{
    let mut k = b;
    for _ in 0..n {
        owners[k] = number;
        let i = breaker_beside(n, k, rising);
        if !counted_closed(breakers[i], closed[i]) {
            return;
        }
        k = bus_beside(n, k, rising);
    }
}

// Further faults (document 02, Note 1) of the parts of a ring, by their places: in rising code, generators first, from 0 to 3n - 1.
#![tactic(auto)]

ghost use Rattle.std.specs.Prelude.{◌≡◌, ◌∷◌, [], ◌*◌, ◌≤◌, ◌<◌};
ghost use Rattle.model.specs.Values.{number, part_code};
ghost use Rattle.model.specs.Reports.{health_of};
ghost use Rattle.model.specs.CutSets.{with_faults};
ghost use Rattle.faults.specs.Places.{part_at};
ghost use Rattle.faults.specs.Idle.{Matters};

use model::{Health, Part, STUCK_OFF, STUCK_OPEN};

// The part at place p, one of the ring's.
fn part_at(n: usize, p: usize) -> Part
    requires { (p < 3 * n) × (n ≤ 20) }
    ensures part { result ≡ part_at n p }
    ensures inside { (1 ≤ number result) × (number result ≤ n) }
{
    if p < n {
        Part::Generator(p as u8 + 1)
    } else if p < n + n {
        Part::GeneratorBreaker((p - n) as u8 + 1)
    } else {
        Part::BusBreaker((p - (n + n)) as u8 + 1)
    }
}

// Whether the part at place p can fail and is on a path: "A further fault is a fit generator going off, or a breaker not stuck open
// becoming so." A generator and its breaker are on no path where one of the two is out, or the generator locked; then neither is in any set.
pub fn matters(n: usize, health: Health, p: usize) -> bool
    requires { (p < 3 * n) × (n ≤ 20) }
    ensures { Matters n (health_of health) (part_at n p) result }
{
    match part_at(n, p) {
        Part::Generator(number) | Part::GeneratorBreaker(number) => {
            let k = number as usize - 1;
            sources::may_feed(
                health.generators[k],
                health.locked[k],
                health.generator_breakers[k],
            )
        }
        Part::BusBreaker(number) => health.bus_breakers[number as usize - 1] != STUCK_OPEN,
    }
}

// The health after the further fault of the part at place p; it alters no lock.
pub fn failed(n: usize, health: Health, p: usize) -> Health
    requires { (p < 3 * n) × (n ≤ 20) }
    ensures { health_of result ≡ with_faults (health_of health) (part_at n p ∷ []) }
{
    let mut after = health;
    match part_at(n, p) {
        Part::Generator(number) => {
            after.generators[number as usize - 1] = STUCK_OFF;
        }
        Part::GeneratorBreaker(number) => {
            after.generator_breakers[number as usize - 1] = STUCK_OPEN;
        }
        Part::BusBreaker(number) => {
            after.bus_breakers[number as usize - 1] = STUCK_OPEN;
        }
    }
    after
}

// The code of the part at place p: generators from 0 on, generator breakers from 32 on, bus breakers from 64 on.
pub fn code_at(n: usize, p: usize) -> u8
    requires { (p < 3 * n) × (n ≤ 20) }
    ensures { result ≡ part_code (part_at n p) }
{
    match part_at(n, p) {
        Part::Generator(number) => number - 1,
        Part::GeneratorBreaker(number) => 31 + number,
        Part::BusBreaker(number) => 63 + number,
    }
}

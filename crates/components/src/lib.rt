// What the plan, the plant reckoning, the files and the ring states share: the bus after another, whether a generator is fit, and the
// tests of a ring's size and of a bus's number. Buses are indices from 0, the paper's numbers less 1.
#![tactic(auto)]

ghost use Rattle.std.specs.Prelude.{◌≡◌, not, ◌&&◌, ◌≤◌, ◌<◌};
ghost use Rattle.model.specs.Plant.{fit, next as bus_after};
ghost use Rattle.model.specs.Refusals.{size_outside, bus_outside};

use model::FIT;

// "BBn joins Bn and B1": the bus after bus k. An inner call: its callers know n and k.
#[tactic(auto, unfolding(model::specs::Plant::next))]
pub fn next(n: usize, k: usize) -> usize
    requires bus { k < n }
    requires size { n ≤ 20 }
    ensures { result ≡ bus_after n k }
{
    let j = k + 1;
    if j < n { j } else { 0 }
}

// "Fit, in choosing, in the plant, in further faults and in judging a dark bus, now means not stuck off and not locked." (document 02, Note
// 7): the one line by which they judge a generator, by its health and its lock.
pub fn fit_generator(generator: u8, locked: bool) -> bool
    ensures { result ≡ fit generator && not locked }
{
    generator == FIT && !locked
}

// 2: "n below 3 or above 20"
#[tactic(auto, unfolding(model::specs::Refusals::size_outside))]
pub fn size_outside(n: u8) -> bool
    ensures { result ≡ size_outside n }
{
    n < 3 || 20 < n
}

// 10: "a bus number outside 1 to n"
#[tactic(auto, unfolding(model::specs::Refusals::bus_outside))]
pub fn bus_outside(n: u8, bus: u8) -> bool
    ensures { result ≡ bus_outside n bus }
{
    bus < 1 || n < bus
}

// The test that healths are those of their parts' kinds. Places of arrays are indices from 0, the paper's numbers less 1.
#![tactic(auto)]

ghost use Rattle.std.specs.Prelude.{◌≡◌, ◌||◌};
ghost use Rattle.model.specs.Plant.{fit, stuck_off, stuck_open, stuck_closed, parts};
ghost use Rattle.model.specs.Lists.{any_of};
ghost use Rattle.model.specs.Reports.{health_of};
ghost use Rattle.model.specs.Refusals.{health_outside};
ghost use Rattle.healths.specs.Kinds.{no_generator, no_breaker};

use model::{FIT, Health, STUCK_CLOSED, STUCK_OFF, STUCK_OPEN};

// "A generator is fit or stuck off."
fn generator_health(health: u8) -> bool
    ensures { result ≡ fit health || stuck_off health }
{
    health == FIT || health == STUCK_OFF
}

// "A breaker is fit, stuck open or stuck closed."
fn breaker_health(health: u8) -> bool
    ensures { result ≡ fit health || stuck_open health || stuck_closed health }
{
    health == FIT || (health == STUCK_OPEN || health == STUCK_CLOSED)
}

// Whether a generator's health is of another kind.
fn any_generator_outside(healths: &[u8]) -> bool
    ensures { result ≡ any_of no_generator healths.now }
{
    healths.iter().any(|health| !generator_health(*health))
}

// Whether a breaker's is.
fn any_breaker_outside(healths: &[u8]) -> bool
    ensures { result ≡ any_of no_breaker healths.now }
{
    healths.iter().any(|health| !breaker_health(*health))
}

// 9: "a health is not one of its part's kind", among the parts up to n; beyond the arrays all are fit.
pub fn health_outside(n: usize, health: Health) -> bool
    ensures { result ≡ health_outside (health_of health) (parts n) }
{
    let held = n.min(20);
    any_generator_outside(&health.generators[..held])
        || any_breaker_outside(&health.generator_breakers[..held])
        || any_breaker_outside(&health.bus_breakers[..held])
}

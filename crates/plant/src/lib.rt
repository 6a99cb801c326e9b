// The plant reckoning of document 01: who feeds each bus, by the health and the commands of the parts.
// Buses, generators and breakers are indices from 0 here, the paper's numbers less 1; an answer names numbers.
#![tactic(auto)]

ghost use Rattle.std.specs.Prelude.{◌≡◌, ◌≤◌, ◌<◌};
ghost use Rattle.model.specs.Values.{outcome_number, feed_values};
ghost use Rattle.model.specs.Plant.{bus_feed};
ghost use Rattle.model.specs.Reports.{places, health_of, commands_of};
ghost use Rattle.model.specs.Refusals.{feeds_refusal};
ghost use Rattle.model.specs.Answers.{feeds_answer, bus_values};
ghost use Rattle.plant.specs.Feeders.{with_feeder};
ghost use Rattle.plant.specs.Buses.{dark_buses, feeds_below};
ghost use Rattle.plant.specs.Answer.{refused_answer};

use model::{BusFeed, Commands, Feed, FeedsAnswer, Health, Refusal};

// "For each bus its answer is one of three: dark, fed by one generator, or a clash that names the two lowest generators
// feeding it.": the answer with one feeding generator more, whose number is higher than those before.
fn with_feeder(feed: Feed, generator: u8) -> Feed
    ensures { result ≡ with_feeder feed generator }
{
    match feed {
        Feed::Dark => Feed::Fed(generator),
        Feed::Fed(lowest) => Feed::Clash(lowest, generator),
        Feed::Clash(lowest, second) => Feed::Clash(lowest, second),
    }
}

// Who feeds bus b.
fn bus_feed(n: usize, health: Health, commands: Commands, b: usize) -> Feed
    requires bus { b < n }
    requires size { n ≤ 20 }
    ensures { result ≡ bus_feed n (health_of health) (commands_of commands) b }
{
    let mut feed = Feed::Dark;
    // kept: g is the generator asked about, no index; (0..n).filter(..).fold(..) takes as many lines
    for g in 0..n {
        if feeding::feeds_bus(n, health, commands, b, g) {
            feed = with_feeder(feed, (g + 1) as u8);
        }
    }
    feed
}

// "the buses of a refused reckoning are all dark"
fn dark_buses() -> [BusFeed; 20]
    ensures { result ≡ dark_buses }
{
    let dark = BusFeed { feed: Feed::Dark };
    [dark; 20]
}

// Who feeds each bus; "so, always, is a bus above n" dark.
fn bus_feeds(n: usize, health: Health, commands: Commands) -> [BusFeed; 20]
    requires { n ≤ 20 }
    ensures { result ≡ feeds_below (bus_feed n (health_of health) (commands_of commands)) n }
{
    let mut buses = dark_buses();
    // kept: b is the bus asked about; buses.iter_mut().take(n).enumerate() names it no plainer
    for b in 0..n {
        let feed = bus_feed(n, health, commands, b);
        buses[b] = BusFeed { feed: feed };
    }
    buses
}

// "Each has its number as the answer"; "the buses of a refused reckoning are all dark"
fn refused(refusal: Refusal) -> FeedsAnswer
    ensures { result ≡ refused_answer refusal }
{
    FeedsAnswer {
        outcome: Err(refusal),
        buses: dark_buses(),
    }
}

// "The plant reckoning takes n, the health of all parts and any set of orders."; "the plant reckoning takes them with the health" (document
// 02, Note 7), the locks; it checks "2, then 9".
pub fn feeds(n: u8, health: Health, commands: Commands) -> FeedsAnswer
    ensures answer { result ≡ feeds_answer n health commands }
    ensures number { outcome_number result.outcome ≡ feeds_refusal n (health_of health) }
    ensures values { feed_values result.buses ≡ places (bus_values n health commands) }
{
    if components::size_outside(n) {
        return refused(Refusal::SizeOutside);
    }
    let size = n as usize;
    if healths::health_outside(size, health) {
        return refused(Refusal::BadRecord);
    }
    FeedsAnswer {
        outcome: Ok(()),
        buses: bus_feeds(size, health, commands),
    }
}

// The live bookings of a load (document 02, Note 5: "Load bookings"): those of its first places. Places are indices from 0.
#![tactic(auto)]

ghost use Rattle.std.specs.Prelude.{◌≡◌, true, suc, ◌≤◌, ◌<◌, get_or, drop};
ghost use Rattle.model.specs.Lists.{any_of};
ghost use Rattle.model.specs.Bookings.{
  live_bookings,
  no_booking,
  with_booking,
  without_booking,
  watts_outside,
  is_live,
  live_twice,
  booking_outside,
};

use model::{Booking, Load};

// 12: "watts outside the range"
#[tactic(auto, unfolding(model::specs::Bookings::watts_outside))]
pub fn watts_outside(watts: u32) -> bool
    ensures { result ≡ watts_outside watts }
{
    watts < 1 || 100000 < watts
}

// The live bookings, in the order of their places. An inner call, as those below: at most 64 are live, which its callers have checked.
pub fn live(load: &Load) -> &[Booking]
    requires { load.now.live ≤ 64 }
    ensures { result.now ≡ live_bookings load.now }
{
    &load.bookings[..load.live as usize]
}

// Whether one of some bookings has a number.
fn has_number(bookings: &[Booking], number: u16) -> bool
    ensures { result ≡ is_live bookings.now «number» }
{
    bookings.iter().any(|booking| booking.number == number)
}

// 13: whether a number is live.
pub fn is_live(load: Load, number: u16) -> bool
    requires { load.live ≤ 64 }
    ensures { result ≡ is_live (live_bookings load) «number» }
{
    has_number(live(&load), number)
}

// 9: "a number live twice"
pub fn live_twice(load: Load) -> bool
    requires { load.live ≤ 64 }
    ensures { result ≡ live_twice (live_bookings load) }
{
    let bookings = live(&load);
    for (place, booking) in bookings.iter().enumerate() {
        if has_number(&bookings[place + 1..], booking.number) {
            return true;
        }
    }
    false
}

// 9: "a bus or watts outside these bounds", of a booking.
#[tactic(auto, unfolding(model::specs::Bookings::booking_outside))]
fn is_outside(n: u8, booking: &Booking) -> bool
    ensures { result ≡ booking_outside n booking.now }
{
    components::bus_outside(n, booking.bus) || watts_outside(booking.watts)
}

// .. and of some live booking.
pub fn any_outside(n: u8, load: Load) -> bool
    requires { load.live ≤ 64 }
    ensures { result ≡ any_of (booking_outside n) (live_bookings load) }
{
    live(&load).iter().any(|booking| is_outside(n, booking))
}

// "Programme staff book equipment on a bus": a booking more, in the first place behind the live ones. An inner call: there is one.
pub fn with_booking(load: Load, booking: Booking) -> Load
    requires { load.live < 64 }
    ensures { result ≡ with_booking load booking }
{
    let place = load.live as usize;
    let mut next = load;
    next.bookings[place] = booking;
    next.live = load.live + 1;
    next
}

// ".. and cancel it later": the later ones move down, and "A cancelled booking's place serves again". An inner call: the number is live.
pub fn without_booking(load: Load, number: u16) -> Load
    requires { (load.live ≤ 64) × (is_live (live_bookings load) «number» ≡ true) }
    ensures { result ≡ without_booking load «number» }
{
    let mut bookings = load.bookings;
    // kept: a count beside the loop, since how many are kept is itself stored as `live`.
    let mut kept = 0u8;
    for booking in live(&load) {
        if booking.number != number {
            bookings[kept as usize] = *booking;
            kept += 1;
        }
    }
    bookings[kept as usize] = Booking {
        number: 0,
        bus: 0,
        watts: 0,
    };
    let mut next = load;
    next.bookings = bookings;
    next.live = kept;
    next
}

// Loads and ring states (document 01: ring records) in the bytes of a stored case. Places are indices from 0.
#![tactic(auto)]

ghost use Rattle.std.specs.Prelude.{◌≡◌, ◌+◌, ◌≤◌, length};
ghost use Rattle.loads.specs.Loads.{number_at, watts_at, booking_at, bookings_at, figures_at, load_at, state_at};

use model::{Booking, Load, RingState};
use std::array;

// A number of two bytes, low byte first.
pub fn number_at(case: &[u8], from: usize) -> u16
    requires { from + 2 ≤ length case.now }
    ensures { result ≡ number_at case.now from }
{
    u16::from_le_bytes([case[from], case[from + 1]])
}

// A number of four bytes, low byte first.
pub fn watts_at(case: &[u8], from: usize) -> u32
    requires { from + 4 ≤ length case.now }
    ensures { result ≡ watts_at case.now from }
{
    u32::from_le_bytes([case[from], case[from + 1], case[from + 2], case[from + 3]])
}

// A booking of seven bytes: its number, its bus and its watts.
pub fn booking_at(case: &[u8], from: usize) -> Booking
    requires { from + 7 ≤ length case.now }
    ensures { result ≡ booking_at case.now from }
{
    Booking {
        number: number_at(case, from),
        bus: case[from + 2],
        watts: watts_at(case, from + 3),
    }
}

// The 64 places of bookings, also those behind the live ones.
fn bookings_at(case: &[u8], from: usize) -> [Booking; 64]
    requires { from + 448 ≤ length case.now }
    ensures { result ≡ bookings_at case.now from }
{
    array::from_fn(|i| booking_at(case, from + 7 * i))
}

// The watts of twenty generators.
fn figures_at(case: &[u8], from: usize) -> [u32; 20]
    requires { from + 80 ≤ length case.now }
    ensures { result ≡ figures_at case.now from }
{
    array::from_fn(|g| watts_at(case, from + 4 * g))
}

// A load: how many bookings are live, the 64 places, the watts of twenty generators and those on dark buses.
pub fn load_at(case: &[u8], from: usize) -> Load
    requires { from + 533 ≤ length case.now }
    ensures { result ≡ load_at case.now from }
{
    Load {
        bookings: bookings_at(case, from + 1),
        live: case[from],
        watts: figures_at(case, from + 449),
        dark_watts: watts_at(case, from + 529),
    }
}

// A ring state of n buses: the ring, and the load behind it.
pub fn state_at(case: &[u8], n: u8, from: usize) -> RingState
    requires { from + 673 ≤ length case.now }
    ensures { result ≡ state_at case.now n from }
{
    RingState {
        ring: cases::ring_at(case, n, from),
        load: load_at(case, from + 140),
    }
}

// Start, step and scan of a ring (document 01, "Fault file and reports"; document 02, Note 2), and bookings on it (document 02, Note 5): the
// calls that take any n, any ring state (document 01: ring record), any report, any scan, any booking and any buffer.
#![tactic(auto)]

ghost use Rattle.std.specs.Prelude.{◌≡◌, [], ◌∷◌, length};
ghost use Rattle.model.specs.Values.{refusal_number, outcome_number, choice_values};
ghost use Rattle.model.specs.Reports.{blank_ring};
ghost use Rattle.model.specs.Refusals.{start_refusal, step_refusal};
ghost use Rattle.model.specs.Answers.{call_values};
ghost use Rattle.model.specs.Scans.{scan_reports, scan_refusal};
ghost use Rattle.model.specs.States.{
  told_state,
  state_refusal,
  state_start,
  state_step,
  state_scan,
  refused_booking,
  book_refusal,
  cancel_refusal,
  book_answer,
  cancel_answer,
};

use model::{Booking, BookingAnswer, Refusal, Report, RingState, Scan, StateAnswer};

// "Starting a ring takes n and gives the record with all parts fit, each bus's choice and the sheet of its first orders."; it checks
// "2, 8". "A refused start has a record with n = 0".
pub fn start(n: u8, buffer: &mut [u8]) -> StateAnswer
    ensures answer { result ≡ (state_start n buffer.old).answer }
    ensures bytes { buffer.new ≡ (state_start n buffer.old).buffer }
    ensures number { outcome_number result.outcome ≡ start_refusal n (length buffer.old) }
    ensures values { choice_values result.choices ≡ call_values (start_refusal n (length buffer.old)) (blank_ring n) }
{
    let load = rings::no_load();
    if components::size_outside(n) {
        return reckoning::with_load(
            rings::refused_by(Refusal::SizeOutside, rings::blank(0)),
            load,
        );
    }
    reckoning::with_load(transition::start(n, buffer), load)
}

// "A step takes a record and a report, and gives the new record, each bus's choice and the sheet."; it checks 9, 5, 6, 8. A
// refused step gives back the record as handed in, however it is damaged.
pub fn step(state: RingState, report: Report, buffer: &mut [u8]) -> StateAnswer
    ensures answer { result ≡ (state_step state report buffer.old).answer }
    ensures bytes { buffer.new ≡ (state_step state report buffer.old).buffer }
    ensures number { outcome_number result.outcome ≡ state_refusal state (step_refusal state.ring report (length buffer.old)) }
    ensures values { choice_values result.choices
        ≡ call_values (state_refusal state (step_refusal state.ring report (length buffer.old))) (told_state state (report ∷ [])).ring }
{
    let ring = state.ring;
    let load = state.load;
    if records::bad_record(state) {
        return reckoning::with_load(rings::refused_by(Refusal::BadRecord, ring), load);
    }
    reckoning::with_load(transition::step(ring, report, buffer), load)
}

// "The record and choices must be those that single steps would end with, and the sheet goes straight from the first standing orders to
// the last."; it checks 9, "11 for a count above 64, after 9 and before the reports", its reports first to last, each 5, 6, and 8
// "last, for the scan's own sheet". A refused scan gives back the record as handed in, however it is damaged.
pub fn scan(state: RingState, scan: Scan, buffer: &mut [u8]) -> StateAnswer
    ensures answer { result ≡ (state_scan state scan buffer.old).answer }
    ensures bytes { buffer.new ≡ (state_scan state scan buffer.old).buffer }
    ensures number { outcome_number result.outcome ≡ state_refusal state (scan_refusal state.ring scan (length buffer.old)) }
    ensures values { choice_values result.choices
        ≡ call_values (state_refusal state (scan_refusal state.ring scan (length buffer.old))) (told_state state (scan_reports scan)).ring }
{
    let ring = state.ring;
    let load = state.load;
    if records::bad_record(state) {
        return reckoning::with_load(rings::refused_by(Refusal::BadRecord, ring), load); // before its count is looked at
    }
    reckoning::with_load(transition::scan(ring, scan, buffer), load)
}

// "Each has its number as the answer, the record as handed in".
fn unbooked(refusal: Refusal, state: RingState) -> BookingAnswer
    ensures { result ≡ refused_booking (refusal_number refusal) state }
{
    BookingAnswer {
        outcome: Err(refusal),
        state,
    }
}

// "Programme staff book equipment on a bus"; it checks 9, 10, 12, 13, 14.
pub fn book(state: RingState, booking: Booking) -> BookingAnswer
    ensures answer { result ≡ book_answer state booking }
    ensures number { outcome_number result.outcome ≡ book_refusal state booking }
{
    let ring = state.ring;
    let load = state.load;
    if records::bad_record(state) { // before the booking is looked at
        return unbooked(Refusal::BadRecord, state);
    }
    if components::bus_outside(ring.n, booking.bus) {
        return unbooked(Refusal::BusOutside, state);
    }
    if bookings::watts_outside(booking.watts) {
        return unbooked(Refusal::WattsOutside, state);
    }
    if bookings::is_live(load, booking.number) {
        return unbooked(Refusal::BookingNumber, state); // already live
    }
    if 64 <= load.live {
        return unbooked(Refusal::BookingsFull, state);
    }
    let booked = reckoning::reckoned_load(ring, bookings::with_booking(load, booking));
    BookingAnswer {
        outcome: Ok(()),
        state: booked,
    }
}

// ".. and cancel it later"; it checks 9, 13. A cancellation has a number alone.
pub fn cancel(state: RingState, number: u16) -> BookingAnswer
    ensures answer { result ≡ cancel_answer state «number» }
    ensures number { outcome_number result.outcome ≡ cancel_refusal state «number» }
{
    let ring = state.ring;
    let load = state.load;
    if records::bad_record(state) {
        return unbooked(Refusal::BadRecord, state);
    }
    if !bookings::is_live(load, number) {
        return unbooked(Refusal::BookingNumber, state); // not live
    }
    let left = reckoning::reckoned_load(ring, bookings::without_booking(load, number));
    BookingAnswer {
        outcome: Ok(()),
        state: left,
    }
}

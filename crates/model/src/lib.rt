// The data of a ring of generators (document 01). Types and numbers alone: their meaning is defined in specs/.
// Parts, buses and generators carry the paper's numbers, 1 to n; arrays have a place for each of 20, at number - 1.
#![tactic(auto)]

ghost use Rattle.std.specs.Prelude.{◌≡◌, false};
ghost use Rattle.model.specs.Papers.{in_papers};

// "A report holds a part, which is a generator, a generator breaker or a bus breaker with its number, and a word."
#[derive(Clone, Copy, PartialEq, Eq)]
pub enum Part {
    Generator(u8),
    GeneratorBreaker(u8),
    BusBreaker(u8),
}

// "Words: 0 fit again, 1 stuck off (generators), 2 stuck open, 3 stuck closed (breakers)."; "Word 4 locks it and word 5 unlocks it" (document
// 02, Note 7), a generator.
#[derive(Clone, Copy, PartialEq, Eq)]
pub enum Word {
    Fit = 0,
    StuckOff = 1,
    StuckOpen = 2,
    StuckClosed = 3,
    Lock = 4,
    Unlock = 5,
}

// "A report holds a part .. and a word."
#[derive(Clone, Copy, PartialEq, Eq)]
pub struct Report {
    pub part: Part,
    pub word: Word,
}

// What the relay scanner "found in a cycle, up to 64 reports, as 64 places and a count; places past the count are not read" (document 02).
// A byte counts, so that a count above 64 can be handed in and refused.
#[derive(Clone, Copy, PartialEq, Eq)]
pub struct Scan {
    pub reports: [Report; 64],
    pub count: u8,
}

// A health is the number of the word that brought it about: "0 fit again, 1 stuck off (generators), 2 stuck open, 3 stuck closed
// (breakers)".
pub const FIT: u8 = 0;

pub const STUCK_OFF: u8 = 1;

pub const STUCK_OPEN: u8 = 2;

pub const STUCK_CLOSED: u8 = 3;

// The health of every part, a byte each, so that a damaged record can be held and refused; and "the lock beside the health" (document 02,
// Note 7): true is locked.
#[derive(Clone, Copy, PartialEq, Eq)]
pub struct Health {
    pub generators: [u8; 20],
    pub generator_breakers: [u8; 20],
    pub bus_breakers: [u8; 20],
    pub locked: [bool; 20],
}

// The command (document 01: order) of every part: true is on or closed.
#[derive(Clone, Copy, PartialEq, Eq)]
pub struct Commands {
    pub generators: [bool; 20],
    pub generator_breakers: [bool; 20],
    pub bus_breakers: [bool; 20],
}

// What switching needs of a ring state (document 01: ring record): "n, each part's health and its standing order".
#[derive(Clone, Copy, PartialEq, Eq)]
pub struct Ring {
    pub n: u8,
    pub health: Health,
    pub commands: Commands,
}

// "A booking has a number from 0 to 65535, a bus and 1 to 100,000 watts" (document 02). Its bus and its watts have more values, so that
// those outside the bounds can be handed in and refused.
#[derive(Clone, Copy, PartialEq, Eq)]
pub struct Booking {
    pub number: u16,
    pub bus: u8,
    pub watts: u32,
}

// "The ring record holds the live bookings", in its first places, and "gives every generator's watts, .. and the watts on dark buses"
// (document 02).
#[derive(Clone, Copy, PartialEq, Eq)]
pub struct Load {
    pub bookings: [Booking; 64],
    pub live: u8,
    pub watts: [u32; 20],
    pub dark_watts: u32,
}

// The ring state (document 01: ring record) as the calls take it and give it: the ring, and the load booked on it.
#[derive(Clone, Copy, PartialEq, Eq)]
pub struct RingState {
    pub ring: Ring,
    pub load: Load,
}

// What a bus is fed by: its own generator, or another by its high or low path (document 01: way).
#[derive(Clone, Copy, PartialEq, Eq)]
pub enum Choice {
    Dark,
    Own(u8),
    High(u8),
    Low(u8),
}

// An array of enums as a struct's field is held as an array of structs.
#[derive(Clone, Copy, PartialEq, Eq)]
pub struct BusChoice {
    pub choice: Choice,
}

// "For each bus its answer is one of three: dark, fed by one generator, or a clash that names the two lowest generators
// feeding it."
#[derive(Clone, Copy, PartialEq, Eq)]
pub enum Feed {
    Dark,
    Fed(u8),
    Clash(u8, u8),
}

// The answer of one bus.
#[derive(Clone, Copy, PartialEq, Eq)]
pub struct BusFeed {
    pub feed: Feed,
}

// A number that the papers give to no refusal: 0, or one above theirs.
#[derive(Clone, Copy, PartialEq, Eq)]
pub struct OtherNumber {
    pub number: u8,
    pub ghost outside_papers: { in_papers number ≡ false },
}

// "What is sent back unserved": the conditions of document 01's table and of the Notes, from 1 on in this order, each with "its number as
// the answer". "refusal 7 is given to no input any more" (document 02, Note 3): it stands here as it stands in the table. An
// answer can be made for any number, and holds that number by itself (`Other`); no call finds one (Laws/Numbers, `refused_in_papers`).
#[derive(Clone, Copy, PartialEq, Eq)]
pub enum Refusal {
    FileShort,
    SizeOutside,
    ReportsAbove,
    LengthOther,
    PartOutside,
    WordOutside,
    GeneratorFit,
    BufferShort,
    BadRecord,
    BusOutside,
    CountAbove,
    WattsOutside,
    BookingNumber,
    BookingsFull,
    RateOutside,
    Unrated,
    Other(OtherNumber),
}

// What an inner start, step or scan answers: the ring alone.
#[derive(Clone, Copy, PartialEq, Eq)]
pub struct RingAnswer {
    pub outcome: Result<(), Refusal>,
    pub ring: Ring,
    pub choices: [BusChoice; 20],
}

// What a start, a step or a scan answers.
#[derive(Clone, Copy, PartialEq, Eq)]
pub struct StateAnswer {
    pub outcome: Result<(), Refusal>,
    pub state: RingState,
    pub choices: [BusChoice; 20],
}

// What a booking or a cancellation answers.
#[derive(Clone, Copy, PartialEq, Eq)]
pub struct BookingAnswer {
    pub outcome: Result<(), Refusal>,
    pub state: RingState,
}

// What the plant reckoning answers.
#[derive(Clone, Copy, PartialEq, Eq)]
pub struct FeedsAnswer {
    pub outcome: Result<(), Refusal>,
    pub buses: [BusFeed; 20],
}

// What the list of minimal cut sets answers: how many stand in the sheet.
#[derive(Clone, Copy, PartialEq, Eq)]
pub struct CutSetsAnswer {
    pub outcome: Result<(), Refusal>,
    pub count: u16,
}

// "Each part has a rate as its data sheet gives it: a chance per hour, a mean number of hours between failures, or unrated." (document 02,
// Note 8). Any float can be handed in, so that one outside the bounds is refused.
#[derive(Clone, Copy)]
pub enum Rate {
    Chance(f64),
    MeanHours(f64),
    Unrated,
}

// The rate of one part.
#[derive(Clone, Copy)]
pub struct PartRate {
    pub rate: Rate,
}

// The rate of every part.
#[derive(Clone, Copy)]
pub struct Rates {
    pub generators: [PartRate; 20],
    pub generator_breakers: [PartRate; 20],
    pub bus_breakers: [PartRate; 20],
}

// "The answer carries that sum, the largest product and the number of sets." (document 02, Note 8)
#[derive(Clone, Copy)]
pub struct Exposure {
    pub sum: f64,
    pub largest: f64,
    pub count: u16,
}

// What the call for a bus's chance of a dark hour answers.
#[derive(Clone, Copy)]
pub struct ExposureAnswer {
    pub outcome: Result<(), Refusal>,
    pub exposure: Exposure,
}

// What the call for the ring after a fault file's last report answers.
#[derive(Clone, Copy, PartialEq, Eq)]
pub struct LatestAnswer {
    pub outcome: Result<(), Refusal>,
    pub ring: Ring,
}

// A whole fault file's number of buses and of reports: "Byte 0 is n.", and m.
#[derive(Clone, Copy, PartialEq, Eq)]
pub struct FileHead {
    pub n: u8,
    pub m: usize,
}

// How far the printed run of a file has come: the lines passed, of which a header or a refusal is one, and the ring behind them.
#[derive(Clone, Copy, PartialEq, Eq)]
pub struct RunCursor {
    pub place: usize,
    pub ring: Ring,
}

// A piece of a printed run in the front of a lent buffer: the cursor behind it, its length, and whether more follows.
#[derive(Clone, Copy, PartialEq, Eq)]
pub struct RunPiece {
    pub cursor: RunCursor,
    pub length: usize,
    pub more: bool,
}

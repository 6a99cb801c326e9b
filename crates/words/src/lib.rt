// Words (document 01, "Fault file and reports") and refusals ("What is sent back unserved"), by their numbers.
#![tactic(auto)]

ghost use Rattle.std.specs.Prelude.{◌≡◌};
ghost use Rattle.model.specs.Values.{word_number, refusal_number, refusal_of, word_values};
ghost use Rattle.model.specs.Reports.{word_named};
ghost use Rattle.model.specs.Answers.{word_answer, byte_values};

use model::{OtherNumber, Refusal, Word};

// "Words: 0 fit again, 1 stuck off (generators), 2 stuck open, 3 stuck closed (breakers)."; "Word 4 locks it and word 5 unlocks it" (document
// 02, Note 7).
pub fn word_of(byte: u8) -> Result<Word, Refusal>
    ensures answer { result ≡ word_answer (word_named byte) }
    ensures values { word_values result ≡ byte_values byte }
{
    match byte {
        0 => Ok(Word::Fit),
        1 => Ok(Word::StuckOff),
        2 => Ok(Word::StuckOpen),
        3 => Ok(Word::StuckClosed),
        4 => Ok(Word::Lock),
        5 => Ok(Word::Unlock),
        _ => Err(Refusal::WordOutside),
    }
}

// The number of a word: undoes `word_of`.
pub fn number_of(word: Word) -> u8
    ensures { result ≡ word_number word }
{
    word as u8
}

// "Each has its number as the answer": the number of a refusal.
pub fn refusal_number(refusal: Refusal) -> u8
    ensures { result ≡ refusal_number refusal }
{
    match refusal {
        Refusal::FileShort => 1,
        Refusal::SizeOutside => 2,
        Refusal::ReportsAbove => 3,
        Refusal::LengthOther => 4,
        Refusal::PartOutside => 5,
        Refusal::WordOutside => 6,
        Refusal::GeneratorFit => 7,
        Refusal::BufferShort => 8,
        Refusal::BadRecord => 9,
        Refusal::BusOutside => 10,
        Refusal::CountAbove => 11,
        Refusal::WattsOutside => 12,
        Refusal::BookingNumber => 13,
        Refusal::BookingsFull => 14,
        Refusal::RateOutside => 15,
        Refusal::Unrated => 16,
        Refusal::Other(other) => other.number,
    }
}

// The refusal that has a number: undoes `refusal_number`, for every number.
pub fn refusal_of(number: u8) -> Refusal
    ensures { result ≡ refusal_of number }
{
    match number {
        1 => Refusal::FileShort,
        2 => Refusal::SizeOutside,
        3 => Refusal::ReportsAbove,
        4 => Refusal::LengthOther,
        5 => Refusal::PartOutside,
        6 => Refusal::WordOutside,
        7 => Refusal::GeneratorFit,
        8 => Refusal::BufferShort,
        9 => Refusal::BadRecord,
        10 => Refusal::BusOutside,
        11 => Refusal::CountAbove,
        12 => Refusal::WattsOutside,
        13 => Refusal::BookingNumber,
        14 => Refusal::BookingsFull,
        15 => Refusal::RateOutside,
        16 => Refusal::Unrated,
        _ => Refusal::Other(OtherNumber { number }),
    }
}

// The reports of a fault file (document 01, "Fault file and reports"). Parts carry the paper's numbers, from 1; the reports of a file
// are counted from 0.
#![tactic(auto)]

ghost use Rattle.std.specs.Prelude.{◌≡◌};
ghost use Rattle.std.proofs.Math.Option.{some};
ghost use Rattle.model.specs.Values.{outcome_of, outcome_number, report_values};
ghost use Rattle.model.specs.Refusals.{first_met, report_conditions, report_of, report_answer};
ghost use Rattle.model.specs.Answers.{report_at, report_values_at};
ghost use Rattle.reports.specs.Reports.{word_conditions};

use model::{Part, Refusal, Report, Word};

// Condition 6 of a word for a breaker: all breakers take the same words. "refusal 6 now meets words above 5 and these two for a breaker"
// (document 02, Note 7): a lock and an unlock.
fn check_breaker_word(word: Word) -> Result<(), Refusal>
    ensures { result ≡ outcome_of (first_met (word_conditions (Part.BusBreaker 1) word)) }
{
    match word {
        Word::Fit => Ok(()),
        Word::StuckOff => Err(Refusal::WordOutside),
        Word::StuckOpen => Ok(()),
        Word::StuckClosed => Ok(()),
        Word::Lock => Err(Refusal::WordOutside),
        Word::Unlock => Err(Refusal::WordOutside),
    }
}

// Condition 6: the word is none for the part's kind. "word 0 makes a generator fit again" (document 02, Note 3); "Word 4 locks it and word 5
// unlocks it; both are for generators" (Note 7).
fn check_word(part: Part, word: Word) -> Result<(), Refusal>
    ensures { result ≡ outcome_of (first_met (word_conditions part word)) }
{
    match part {
        Part::Generator(_) => match word {
            Word::Fit => Ok(()),
            Word::StuckOff => Ok(()),
            Word::StuckOpen => Err(Refusal::WordOutside),
            Word::StuckClosed => Err(Refusal::WordOutside),
            Word::Lock => Ok(()),
            Word::Unlock => Ok(()),
        },
        Part::GeneratorBreaker(_) => check_breaker_word(word),
        Part::BusBreaker(_) => check_breaker_word(word),
    }
}

// A report in a ring of n: conditions 5 and 6, in this order.
pub fn check_report(n: u8, report: Report) -> Result<(), Refusal>
    ensures answer { result ≡ outcome_of (first_met (report_conditions n report)) }
    ensures number { outcome_number result ≡ first_met (report_conditions n report) }
{
    let part = report.part;
    let word = report.word;
    if codes::not_of_ring(n, part) {
        Err(Refusal::PartOutside)
    } else {
        check_word(part, word)
    }
}

// A report, or its refusal.
fn checked_report(n: u8, report: Report) -> Result<Option<Report>, Refusal>
    ensures { result ≡ report_of n (some report.part) (some report.word) }
{
    check_report(n, report)?;
    Ok(Some(report))
}

// The report that a code and a word make in a ring of n: the code is looked at first.
fn report_of(n: u8, code: u8, word: u8) -> Result<Option<Report>, Refusal>
    ensures { result ≡ report_answer n code word }
{
    let part = codes::part_of(code, n)?;
    let word = words::word_of(word)?;
    checked_report(n, Report { part, word })
}

// The i-th report, from 0, of the part codes and the words of a file: none past the end of either.
pub fn report_at(n: u8, codes: &[u8], words: &[u8], i: usize) -> Result<Option<Report>, Refusal>
    ensures answer { result ≡ report_at n codes.now words.now i }
    ensures values { report_values result ≡ report_values_at n codes.now words.now i }
{
    if codes.len() <= i || words.len() <= i {
        return Ok(None);
    }
    report_of(n, codes[i], words[i])
}

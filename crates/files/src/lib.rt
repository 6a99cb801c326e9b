// The checks of a whole fault file (document 01, "Fault file and reports"). Reports are counted from 0.
#![tactic(auto)]

ghost use Rattle.std.specs.Prelude.{◌≡◌};
ghost use Rattle.model.specs.Values.{outcome_of, file_values};
ghost use Rattle.model.specs.Reports.{file_size};
ghost use Rattle.model.specs.Refusals.{reports_refusal};
ghost use Rattle.model.specs.Answers.{file_answer, whole_values};

use model::{FileHead, Refusal};

// The first refusal among the reports of a file's part codes and words, first to last.
fn check_reports(n: u8, codes: &[u8], words: &[u8]) -> Result<(), Refusal>
    ensures { result ≡ outcome_of (reports_refusal n codes.now words.now) }
{
    // kept: `reports::report_at` answers by a report's place, and the words may be fewer than the codes
    for i in 0..codes.len() {
        let Some(_) = reports::report_at(n, codes, words, i)? else {
            return Ok(());
        };
    }
    Ok(())
}

// "Byte 0 is n.": the number of buses. "That file now stands for a ring of three" (document 02, Note 9): one of no bytes.
pub fn bus_count(file: &[u8]) -> u8
    ensures { result ≡ file_size file.now }
{
    if 0 < file.len() {
        return file[0];
    }
    3
}

// A whole fault file: 1, 2, 3, 4, then its reports first to last.
pub fn check_file(file: &[u8]) -> Result<FileHead, Refusal>
    ensures answer { result ≡ file_answer file.now }
    ensures values { file_values result ≡ whole_values file.now }
{
    let n = bus_count(file);
    // ".. without reports": nothing is left to check
    if file.len() == 0 {
        return Ok(FileHead { n, m: 0 });
    }
    if file.len() < 3 {
        return Err(Refusal::FileShort);
    }
    if components::size_outside(n) {
        return Err(Refusal::SizeOutside);
    }
    let m = file[1] as usize + 256 * (file[2] as usize);
    if 4096 < m {
        return Err(Refusal::ReportsAbove);
    }
    if file.len() != 3 + 2 * m {
        return Err(Refusal::LengthOther);
    }
    // "Each array is handed on as that stretch of the file, without a copy."
    check_reports(n, &file[3..3 + m], &file[3 + m..])?;
    Ok(FileHead { n, m })
}

// What is read from standard input or a file, in a lent buffer; of a fault file as much as decides its run.
#![tactic(auto)]

ghost use Rattle.std.specs.Prelude.{◌≡◌, length, MatchResult};
ghost use Rattle.reading.specs.Counts.{IsPrefixLen};
ghost use Rattle.model.specs.Text.{read_size};

use std::io::Read;

// A read failed, behind as many bytes.
#[derive(Clone, Copy, Debug, PartialEq, Eq)]
pub struct Failed {
    pub size: usize,
}

// Reads until the buffer is full, the input ends or a read fails, and answers how many bytes. A read that gives no byte is the end of the
// input.
pub fn read_full<R: Read>(source: &mut R, buffer: &mut [u8]) -> Result<usize, Failed>
    ensures { MatchResult result (λ size. IsPrefixLen size buffer.new) (λ failed. IsPrefixLen failed.size buffer.new) }
{
    let mut size = 0;
    while size < buffer.len() {
        let Ok(more) = source.read(&mut buffer[size..]) else {
            return Err(Failed { size });
        };
        if more == 0 {
            break;
        }
        size += more;
    }
    Ok(size)
}

// Reads as much of the file as decides its run.
pub fn read_file<R: Read>(source: &mut R, file: &mut [u8]) -> Result<usize, Failed>
    requires { length file.old ≡ read_size }
    ensures { MatchResult result (λ size. IsPrefixLen size file.new) (λ failed. IsPrefixLen failed.size file.new) }
{
    read_full(source, file)
}

// The three counts with which the body begins.
ghost use Rattle.std.specs.Prelude.{◌≡◌};
ghost use Rattle.definitions.specs.Reading.{count};
ghost use Rattle.reader.specs.Said.{said_got};
ghost use Rattle.opening.specs.Parts.{read_counts};

use super::Counts;
use definitions::Got;
use reader::checks::number_at;
use reader::{Fault, Why};

fn count_at(bytes: &[u8], at: usize, most: u32) -> Result<Got<u32>, Fault>
    ensures { said_got result ≡ count 0 most 2 bytes.now at }
{
    number_at(bytes, at, 2, 0, most, Why::Count)
}

pub fn counts_at(bytes: &[u8], at: usize) -> Result<Got<Counts>, Fault>
    ensures { said_got result ≡ read_counts bytes.now at }
{
    let ints = count_at(bytes, at, 1024)?;
    let bools = count_at(bytes, ints.next, 4096)?;
    let clauses = count_at(bytes, bools.next, 4096)?;
    let value = Counts {
        ints: ints.value,
        bools: bools.value,
        clauses: clauses.value,
    };
    Ok(Got {
        value,
        next: clauses.next,
    })
}

// The variable table: a lower and an upper bound for each integer variable.
ghost use Rattle.std.specs.Prelude.{◌≡◌};
ghost use Rattle.definitions.specs.Reading.{times, bound, read_bounds};
ghost use Rattle.reader.specs.Said.{said_got, said_step};
ghost use Rattle.reader.specs.Parts.{past};

use definitions::Got;
use reader::checks::whole_at;
use reader::{Fault, Why};

fn bound_at(bytes: &[u8], at: usize) -> Result<Got<i32>, Fault>
    ensures { said_got result ≡ bound bytes.now at }
{
    whole_at(bytes, at, 2, -4096, 4095, Why::Bound)
}

fn past_bounds(bytes: &[u8], at: usize) -> Result<usize, Fault>
    ensures { said_step result ≡ past (read_bounds bytes.now at) }
{
    let lower = bound_at(bytes, at)?;
    let upper = bound_at(bytes, lower.next)?;
    if upper.value < lower.value {
        return Err(Fault {
            why: Why::Bound,
            place: lower.next,
        });
    }
    Ok(upper.next)
}

pub fn past_table(bytes: &[u8], n: u32, at: usize) -> Result<usize, Fault>
    ensures { said_step result ≡ past (times n read_bounds bytes.now at) }
{
    let mut place = at;
    for _ in 0..n {
        place = past_bounds(bytes, place)?;
    }
    Ok(place)
}

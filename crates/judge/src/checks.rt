// Judge's and Image's checks of the lists that they are lent: refusals 11, 12, 14 and 13, in this order.
ghost use Rattle.std.specs.Prelude.{◌≡◌, map};
ghost use Rattle.definitions.specs.Tools.{any};
ghost use Rattle.definitions.specs.Result.{each};
ghost use Rattle.definitions.specs.Meaning.{assigned, holds};
ghost use Rattle.definitions.specs.Answers.{said_verdict};
ghost use Rattle.laws.specs.Boards.{board_of};
ghost use Rattle.lent.specs.Said.{said_found};
ghost use Rattle.judge.specs.Suited.{Near};
ghost use Rattle.judge.specs.Checks.{Long, fitting, solving};

use crate::clauses::first_failing;
use crate::values::first_outside;
use definitions::Refusal;
use lent::first_bad_byte;
use opening::record::Record;

// Refusal 11 for the values and for the Booleans.
pub fn lengths(opened: &Record, values: &[i32], booleans: &[u8]) -> Result<(), Refusal>
    ensures { said_verdict result ≡ fitting (board_of opened.now) values.now booleans.now }
{
    let ints = opened.ints();
    if values.len() != ints {
        return Err(Refusal::LentWrong { wanted: ints });
    }
    let bools = opened.bools();
    if booleans.len() != bools {
        return Err(Refusal::LentWrong { wanted: bools });
    }
    Ok(())
}

// The record's first clause that does not hold.
fn first_broken(opened: &Record, values: &[i32], booleans: &[u8]) -> Option<usize>
    requires { Long opened.now values.now booleans.now × Near values.now }
    ensures { said_found 13 result ≡ each 13 0 (map (any (holds (assigned values.now booleans.now))) (board_of opened.now).clauses) }
{
    first_failing(opened.rules(), values, booleans, opened.clauses())
}

// Refusals 12, 14 and 13: no sum is formed before every value is known to be within its bounds.
pub fn solved(opened: &Record, values: &[i32], booleans: &[u8]) -> Result<(), Refusal>
    requires { Long opened.now values.now booleans.now }
    ensures { said_verdict result ≡ solving (board_of opened.now) values.now booleans.now }
{
    if let Some(index) = first_bad_byte(booleans) {
        return Err(Refusal::ByteWrong { index });
    }
    if let Some(index) = first_outside(opened, values) {
        return Err(Refusal::ValueOutside { index });
    }
    if let Some(number) = first_broken(opened, values, booleans) {
        return Err(Refusal::ClauseFails { number });
    }
    Ok(())
}

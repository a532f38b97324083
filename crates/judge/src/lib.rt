// Judge: whether values and Booleans are a solution of a record's board.
#![tactic(auto)]

ghost use Rattle.judge.specs.Outcome.{Allowed};

use crate::checks::{lengths, solved};
use definitions::Refusal;
use measure::measure;
use opening::record::Record;

pub mod checks; // checks.rt: refusals 11, 12, 14 and 13
pub mod clauses; // clauses.rt: the first clause that does not hold (refusal 13)
pub mod literals; // literals.rt: comparisons and literals at the values
pub mod values; // values.rt: the first value outside its bounds (refusal 14)

// Accepts exactly a solution; nothing is written.
pub fn judge(bytes: &[u8], values: &[i32], booleans: &[u8]) -> Result<(), Refusal>
    ensures { Allowed bytes.now values.now booleans.now result }
{
    let measured = measure(bytes)?;
    let opened = &Record::new(bytes, measured.header);
    lengths(opened, values, booleans)?;
    solved(opened, values, booleans)
}

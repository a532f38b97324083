// Closing: the least value of a variable over all solutions, by a solver's replies to questions 'at most h?'.
#![tactic(auto)]

ghost use Rattle.closing.specs.Outcome.{Allowed};

use crate::checks::checked;
use crate::search::searched;
use definitions::{Hour, Refusal};
use measure::measure;
use opening::record::Record;
use slots::variables::bounds_of;

pub mod checks; // checks.rt: refusals 22 and 12
pub mod search; // search.rt: the range and the replies, refusal 23

// The answer to the replies so far; nothing is written, and nothing is kept from an earlier call.
pub fn closing(bytes: &[u8], variable: usize, replies: &[u8]) -> Result<Hour, Refusal>
    ensures { Allowed bytes.now variable replies.now result }
{
    let measured = measure(bytes)?;
    let opened = &Record::new(bytes, measured.header);
    checked(opened.ints(), variable, replies)?;
    searched(bounds_of(opened, variable), replies)
}

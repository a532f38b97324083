// Size: N, M and K, which `measure` counts.
#![tactic(auto)]

ghost use Rattle.size.specs.Outcome.{Allowed};

use definitions::{Refusal, Sizes};
use measure::measure;

// The three numbers, or a refusal of the record.
pub fn size(bytes: &[u8]) -> Result<Sizes, Refusal>
    ensures { Allowed bytes.now result }
{
    let measured = measure(bytes)?;
    Ok(measured.sizes)
}

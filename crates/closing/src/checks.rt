// Closing's checks of what it is lent beside the record: refusals 22 and 12, in this order.
ghost use Rattle.std.specs.Prelude.{◌≡◌, ltb};
ghost use Rattle.definitions.specs.Result.{need};
ghost use Rattle.definitions.specs.Answers.{said_verdict};
ghost use Rattle.lent.specs.Said.{said_found};
ghost use Rattle.closing.specs.Checks.{lent_allowed};

use definitions::Refusal;
use lent::first_bad_byte;

// The variable's number, where the record has no such variable (refusal 22).
fn unknown_variable(ints: usize, variable: usize) -> Option<usize>
    ensures { said_found 22 result ≡ need 22 variable (ltb variable ints) }
{
    (ints <= variable).then_some(variable)
}

pub fn checked(ints: usize, variable: usize, replies: &[u8]) -> Result<(), Refusal>
    ensures { said_verdict result ≡ lent_allowed ints variable replies.now }
{
    if let Some(number) = unknown_variable(ints, variable) {
        return Err(Refusal::NoVariable { number });
    }
    if let Some(index) = first_bad_byte(replies) {
        return Err(Refusal::ByteWrong { index });
    }
    Ok(())
}

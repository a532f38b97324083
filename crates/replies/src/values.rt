// The numbers of a reply.
ghost use Rattle.std.specs.Prelude.{◌≡◌, ◌+◌, ◌<◌, drop, ◌&&◌, IfOk};
ghost use Rattle.definitions.specs.Tools.{eqb};
ghost use Rattle.replies.specs.Parts.{after_number, number_on, value_at, reply_from, lines, summed};
ghost use Rattle.replies.specs.Said.{number_said, said_value, ValueIn, said_listed};

use super::parts::{number_at, word_at};
use super::{Bad, Listed, Literal, Number};

// What follows a number: after the 0, which is the last, a newline and the end, after a literal a blank.
fn after_number(text: &[u8], number: Number, from: usize) -> Result<Option<Literal>, Bad>
    ensures says { said_value text.now result ≡ after_number (number_said number) from (drop from text.now) }
    ensures place { IfOk result (ValueIn from text.now) }
{
    let Some(b) = text.get(from) else {
        return Err(Bad { place: from });
    };
    let line = *b == b'\n';
    if number.size != 0 {
        return Ok(Some(Literal {
            number,
            line,
            next: from + 1,
        }));
    }
    if !line {
        return Err(Bad { place: from });
    }
    if from + 1 < text.len() {
        return Err(Bad { place: from + 1 });
    }
    Ok(None)
}

#[inline(always)]
fn number_on(text: &[u8], n: u32, from: usize) -> Result<Option<Literal>, Bad>
    ensures says { said_value text.now result ≡ number_on n from (drop from text.now) }
    ensures place { IfOk result (ValueIn from text.now) }
{
    let got = number_at(text, n, from)?;
    after_number(text, got.value, got.next)
}

// The next literal, at a line's beginning or in it; none where the 0 stands that is the last number.
#[inline(always)]
pub fn value_at(text: &[u8], n: u32, line: bool, from: usize) -> Result<Option<Literal>, Bad>
    ensures says { said_value text.now result ≡ value_at n line from (drop from text.now) }
    ensures place { IfOk result (ValueIn from text.now) }
{
    let next = if line {
        word_at(text, b"v ", from)?
    } else {
        from
    };
    number_on(text, n, next)
}

fn is_next(rising: bool, size: u32, literals: usize) -> bool
    requires { literals < 18446744073709551615 }
    ensures { result ≡ (rising && eqb size (literals + 1)) }
{
    rising && size as usize == literals + 1
}

// How many literals there are, and whether they are of 1, 2, .. in this order, if all is well.
pub fn count_values(text: &[u8], n: u32, from: usize) -> Result<Listed, Bad>
    ensures { said_listed result ≡ summed (reply_from (lines n) from (drop from text.now)) }
{
    let mut at = from;
    let mut line = true;
    let mut count = 0;
    let mut rising = true;
    while let Some(literal) = value_at(text, n, line, at)? {
        rising = is_next(rising, literal.number.size, count);
        count += 1;
        line = literal.line;
        at = literal.next;
    }
    Ok(Listed { count, rising })
}

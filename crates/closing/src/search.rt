// The range of a variable, narrowed by one reply after another.
ghost use Rattle.std.specs.Prelude.{◌≡◌};
ghost use Rattle.definitions.specs.Answers.{hour_said, said_hour};
ghost use Rattle.definitions.specs.Closing.{after, halfway, tells, unfinished};
ghost use Rattle.laws.specs.Admitted.{GoodBounds};
ghost use Rattle.slots.specs.Variables.{bounds_read};
ghost use Rattle.closing.specs.Ranges.{Asked, Left, Small};

use definitions::{Hour, Refusal};
use slots::Bounds;
use walk::division::floor_div;

// Half the sum of low and high, rounded down.
fn half(range: Bounds) -> i32
    requires { Small range }
    ensures { result ≡ halfway (bounds_read range) }
{
    floor_div(range.lower + range.upper, 2)
}

// What a reply to 'at most h?' leaves of the range.
fn narrowed(range: Bounds, h: i32, reply: u8) -> Bounds
    requires { Asked (bounds_read range) h }
    ensures { Left range h reply result }
{
    if reply == 1 {
        return Bounds {
            lower: range.lower,
            upper: h,
        };
    }
    Bounds {
        lower: h + 1,
        upper: range.upper,
    }
}

// What a range tells: the next question, the value, or that there is none.
fn told(range: Bounds) -> Hour
    requires { Small range }
    ensures { hour_said result ≡ tells (bounds_read range) }
{
    if range.lower < range.upper {
        return Hour::Unfinished {
            low: range.lower,
            high: range.upper,
            question: half(range),
        };
    }
    if range.upper < range.lower {
        return Hour::None;
    }
    Hour::Found(range.lower)
}

// The answer to all replies; the first question is at the upper bound.
pub fn searched(range: Bounds, replies: &[u8]) -> Result<Hour, Refusal>
    requires { GoodBounds (bounds_read range) }
    ensures { said_hour result ≡ after (unfinished (bounds_read range) range.upper) replies.now }
{
    let mut hour = Hour::Unfinished {
        low: range.lower,
        high: range.upper,
        question: range.upper,
    };
    for (i, reply) in replies.iter().enumerate() {
        let Hour::Unfinished {
            low,
            high,
            question,
        } = hour
        else {
            return Err(Refusal::RepliesLeft {
                count: replies.len() - i,
            });
        };
        let left = Bounds {
            lower: low,
            upper: high,
        };
        hour = told(narrowed(left, question, *reply));
    }
    Ok(hour)
}

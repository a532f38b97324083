// A comparison: the count of its terms, the terms, the constant.
ghost use Rattle.std.specs.Prelude.{◌≡◌, ◌+◌, ◌*◌, ◌≤◌, length};
ghost use Rattle.definitions.specs.Tools.{[], any, eqb};
ghost use Rattle.definitions.specs.Board.{at_most};
ghost use Rattle.definitions.specs.Reading.{mapped, read_terms, read_comparison};
ghost use Rattle.reader.specs.Said.{context_of, said_got, said_step, said_literal, Placed};
ghost use Rattle.reader.specs.Parts.{past, coefficient, variable, read_term, constant};
ghost use Rattle.reader.specs.Seen.{seen_at};

use super::checks::{number_at, whole_at};
use super::{Context, Fault, Literal, Why};
use definitions::Got;
use fields::{unchecked, unsigned_at};

fn past_coefficient(rules: &[u8], at: usize) -> Result<usize, Fault>
    ensures { said_step result ≡ past (coefficient rules.now at) }
{
    let read = whole_at(rules, at, 1, -64, 64, Why::Coefficient)?;
    if read.value == 0 {
        return Err(Fault {
            why: Why::Coefficient,
            place: at,
        });
    }
    Ok(read.next)
}

// Whether one of the first n terms has the variable.
fn is_repeated(rules: &[u8], first: usize, n: usize, variable: u32) -> bool
    requires { first + 3 * n ≤ length rules.now }
    ensures { result ≡ any (eqb variable) (seen_at rules.now first n) }
{
    for i in (0..n).rev() {
        if unchecked(rules, first + 3 * i + 1, 2) == variable {
            return true;
        }
    }
    false
}

fn past_variable(
    rules: &[u8],
    known: Context,
    first: usize,
    n: usize,
    at: usize,
) -> Result<usize, Fault>
    requires { first + 3 * n ≤ length rules.now }
    ensures { said_step result ≡ past (variable (context_of known) (seen_at rules.now first n) rules.now at) }
{
    let Some(read) = unsigned_at(rules, at, 2) else {
        return Err(Fault {
            why: Why::End,
            place: at,
        });
    };
    if known.ints <= read.value {
        return Err(Fault {
            why: Why::Unknown,
            place: at,
        });
    }
    if is_repeated(rules, first, n, read.value) {
        return Err(Fault {
            why: Why::Repeated,
            place: at,
        });
    }
    Ok(read.next)
}

// Term n of those that begin at first.
fn past_term(rules: &[u8], known: Context, first: usize, n: usize) -> Result<usize, Fault>
    requires { first + 3 * n ≤ length rules.now }
    ensures { said_step result ≡ past (read_term (context_of known) (seen_at rules.now first n) rules.now (first + 3 * n)) }
{
    let at = past_coefficient(rules, first + 3 * n)?;
    past_variable(rules, known, first, n, at)
}

fn past_terms(rules: &[u8], known: Context, first: usize, n: usize) -> Result<usize, Fault>
    requires { first ≤ length rules.now }
    ensures { said_step result ≡ past (read_terms (context_of known) [] n rules.now first) }
{
    let mut place = first;
    for i in 0..n {
        place = past_term(rules, known, first, i)?;
    }
    Ok(place)
}

fn constant_at(rules: &[u8], at: usize) -> Result<Got<i32>, Fault>
    ensures { said_got result ≡ constant rules.now at }
{
    whole_at(rules, at, 4, -1000000, 1000000, Why::Constant)
}

// The terms one after another, then the constant.
pub fn comparison_at(rules: &[u8], known: Context, place: usize) -> Result<Got<Literal>, Fault>
    ensures { (said_literal rules.now result ≡ mapped at_most (read_comparison (context_of known)) rules.now place) × Placed place result }
{
    let n = number_at(rules, place, 1, 1, 3, Why::Count)?;
    let end = past_terms(rules, known, n.next, n.value as usize)?;
    let last = constant_at(rules, end)?;
    Ok(Got {
        value: Literal::Comparison {
            place,
            constant: last.value,
        },
        next: last.next,
    })
}

// Literals, and clauses: a count and so many literals.
ghost use Rattle.std.specs.Prelude.{◌≡◌, ◌+◌};
ghost use Rattle.definitions.specs.Reading.{times, count, boolean, read_literal, read_clause};
ghost use Rattle.reader.specs.Said.{context_of, said_got, said_step, said_literal, Placed};
ghost use Rattle.reader.specs.Parts.{past};

use super::checks::number_at;
use super::comparisons::comparison_at;
use super::{Context, Fault, Literal, Why};
use definitions::Got;

// The number of a Boolean variable.
fn boolean_at(rules: &[u8], known: Context, at: usize) -> Result<Got<u32>, Fault>
    ensures { said_got result ≡ boolean (context_of known) rules.now at }
{
    number_at(rules, at, 2, 1, known.bools, Why::Literal)
}

// Kind 0 is the Boolean, kind 1 its negation, kind 2 a comparison.
pub fn literal_at(rules: &[u8], known: Context, at: usize) -> Result<Got<Literal>, Fault>
    ensures { (said_literal rules.now result ≡ read_literal (context_of known) rules.now at) × Placed (at + 1) result }
{
    let kind = number_at(rules, at, 1, 0, 2, Why::Literal)?;
    if 1 < kind.value {
        return comparison_at(rules, known, kind.next);
    }
    let read = boolean_at(rules, known, kind.next)?;
    let value = match kind.value {
        0 => Literal::Boolean(read.value),
        _ => Literal::Negated(read.value),
    };
    Ok(Got {
        value,
        next: read.next,
    })
}

fn past_literals(rules: &[u8], known: Context, n: u32, at: usize) -> Result<usize, Fault>
    ensures { said_step result ≡ past (times n (read_literal (context_of known)) rules.now at) }
{
    let mut place = at;
    for _ in 0..n {
        place = literal_at(rules, known, place)?.next;
    }
    Ok(place)
}

// How many literals the clause has.
pub fn literal_count_at(rules: &[u8], at: usize) -> Result<Got<u32>, Fault>
    ensures { said_got result ≡ count 0 64 1 rules.now at }
{
    number_at(rules, at, 1, 0, 64, Why::Count)
}

pub fn past_clause(rules: &[u8], known: Context, at: usize) -> Result<usize, Fault>
    ensures { said_step result ≡ past (read_clause (context_of known) rules.now at) }
{
    let n = literal_count_at(rules, at)?;
    past_literals(rules, known, n.value, n.next)
}

pub fn past_clauses(rules: &[u8], known: Context, n: usize, at: usize) -> Result<usize, Fault>
    ensures { said_step result ≡ past (times n (read_clause (context_of known)) rules.now at) }
{
    let mut place = at;
    for _ in 0..n {
        place = past_clause(rules, known, place)?;
    }
    Ok(place)
}

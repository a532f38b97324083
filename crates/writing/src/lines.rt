// The line of a clause: its Boolean literals and its comparisons' selectors.
ghost use Rattle.std.specs.Prelude.{◌≡◌, ◌+◌, ◌<◌, nat_abs};
ghost use Rattle.laws.specs.Limits.{numbers_limit};
ghost use Rattle.laws.specs.Again.{literals_at};
ghost use Rattle.writing.specs.Lines.{literal_here, takes, line_numbers, LineRead};

use crate::parts::Part;
use reader::Literal;
use reader::rereading::literal_again;

// A literal's number; a comparison's is that of its selector.
fn number_of(literal: Literal, selector: u32) -> i32
    requires { nat_abs (literal_here selector literal) < numbers_limit }
    ensures { result ≡ literal_here selector literal }
{
    match literal {
        Literal::Boolean(b) => b as i32,
        Literal::Negated(b) => -(b as i32),
        Literal::Comparison { .. } => selector as i32,
    }
}

fn selectors_of(literal: Literal) -> u32
    ensures { result ≡ takes literal }
{
    match literal {
        Literal::Boolean(_) => 0,
        Literal::Negated(_) => 0,
        Literal::Comparison { .. } => 1,
    }
}

// Of n literals that begin at a place of the rules; the first selector has the number given.
pub fn put_line<P: Part>(
    rules: &[u8],
    place: usize,
    n: usize,
    selector: u32,
    at: usize,
    part: &mut P,
) -> usize
    requires { LineRead rules.now n place × (selector + n < numbers_limit) × P.room part.old at (line_numbers selector (literals_at rules.now n place).value) }
    ensures { P.adds (line_numbers selector (literals_at rules.now n place).value) at part.old result part.new }
{
    let mut next_place = place;
    let mut number = selector;
    let mut to = at;
    for _before in 0..n {
        let got = literal_again(rules, next_place);
        let literal = got.value;
        to = part.add(number_of(literal, number), to);
        number += selectors_of(literal);
        next_place = got.next;
    }
    part.add(0, to)
}

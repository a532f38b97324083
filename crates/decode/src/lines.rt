// The clause of a record clause's Boolean literals and selectors.
ghost use Rattle.std.specs.Prelude.{◌≡◌, ◌+◌, ◌≤◌, ◌<◌, length};
ghost use Rattle.definitions.specs.Tools.{All};
ghost use Rattle.definitions.specs.Result.{done};
ghost use Rattle.definitions.specs.Reading.{times, read_literal};
ghost use Rattle.laws.specs.Again.{literals_at};
ghost use Rattle.laws.specs.Boards.{board_of};
ghost use Rattle.laws.specs.Reread.{context_of};
ghost use Rattle.laws.specs.Pieces.{line_from};
ghost use Rattle.laws.specs.Mentions.{Mentions};
ghost use Rattle.decode.specs.Given.{Given};
ghost use Rattle.decode.specs.Truth.{true_clause};
ghost use Rattle.decode.specs.Lines.{number_in, signed, selector_after};

use lent::is_on;
use reader::Literal;
use reader::rereading::literal_again;
use slots::numbered::Numbered;

// Whether a literal of a line holds: a comparison stands there as selector j, and selector 0 has the number `selectors`.
fn literal_holds(model: &[u8], literal: Literal, selectors: usize, j: usize) -> bool
    requires { (1 ≤ number_in (selectors + j) literal) × (number_in (selectors + j) literal ≤ length model.now) × (length model.now < 2147483648) }
    ensures { result ≡ signed model.now (selectors + j) literal }
{
    match literal {
        Literal::Boolean(b) => is_on(model, b as usize),
        Literal::Negated(b) => !is_on(model, b as usize),
        Literal::Comparison { .. } => is_on(model, selectors + j),
    }
}

// The next selector behind a literal.
fn selector_after(literal: Literal, j: usize) -> usize
    requires { number_in j literal < 2147483648 }
    ensures { result ≡ selector_after literal j }
{
    match literal {
        Literal::Boolean(_) | Literal::Negated(_) => j,
        Literal::Comparison { .. } => j + 1,
    }
}

// Whether some literal of a line holds: it has n literals, from the place `at` on, and selectors from `selector` on.
pub fn line_holds(
    numbered: &Numbered,
    rules: &[u8],
    model: &[u8],
    n: usize,
    at: usize,
    selector: usize,
) -> bool
    requires { Given numbered.now model.now × (times n (read_literal (context_of (board_of numbered.now))) rules.now at ≡ done (literals_at rules.now n at)) × All (Mentions (board_of numbered.now)) (line_from selector (literals_at rules.now n at).value) }
    ensures { result ≡ true_clause (board_of numbered.now) model.now (line_from selector (literals_at rules.now n at).value) }
{
    let selectors = numbered.selectors() as usize;
    let mut j = selector;
    let mut place = at;
    for _ in 0..n {
        let read = literal_again(rules, place);
        let literal = read.value;
        if literal_holds(model, literal, selectors, j) {
            return true;
        }
        j = selector_after(literal, j);
        place = read.next;
    }
    false
}

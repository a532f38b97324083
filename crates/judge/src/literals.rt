// Comparisons and literals at values that lie within bounds.
ghost use Rattle.std.specs.Prelude.{◌≡◌, [], length};
ghost use Rattle.definitions.specs.Meaning.{assigned, compares, holds};
ghost use Rattle.laws.specs.Admitted.{GoodTerm};
ghost use Rattle.laws.specs.Reread.{comparison_at, Stands};
ghost use Rattle.reader.specs.Said.{literal_of};
ghost use Rattle.reader.specs.Literals.{KnownLiteral};
ghost use Rattle.slots.specs.Terms.{term_read};
ghost use Rattle.judge.specs.Suited.{Near, product};

use lent::is_on;
use reader::Literal;
use slots::Term;
use slots::comparisons::terms_at;

// The value of a term.
fn value_of(values: &[i32], term: Term) -> i32
    requires { Near values.now × GoodTerm (length values.now) (term_read term) }
    ensures { result ≡ product values.now (term_read term) }
{
    term.coefficient * values[term.variable]
}

// The comparison whose term count stands at a place.
pub fn compares(rules: &[u8], values: &[i32], place: usize, constant: i32) -> bool
    requires { Near values.now × Stands (length values.now) rules.now place constant }
    ensures { result ≡ compares (assigned values.now []) (comparison_at rules.now place constant) }
{
    let read = terms_at(rules, place);
    let terms = read.terms;
    let mut sum = 0;
    for term in &terms[..read.n] {
        sum += value_of(values, *term);
    }
    sum <= constant
}

pub fn holds(rules: &[u8], values: &[i32], booleans: &[u8], literal: Literal) -> bool
    requires { Near values.now × KnownLiteral rules.now (length values.now) (length booleans.now) literal }
    ensures { result ≡ holds (assigned values.now booleans.now) (literal_of rules.now literal) }
{
    match literal {
        Literal::Boolean(b) => is_on(booleans, b as usize),
        Literal::Negated(b) => !is_on(booleans, b as usize),
        Literal::Comparison { place, constant } => compares(rules, values, place, constant),
    }
}

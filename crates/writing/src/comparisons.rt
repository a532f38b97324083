// A comparison's clauses, each led by the same literal, a negated selector, or by none.
ghost use Rattle.std.specs.Prelude.{◌≡◌};
ghost use Rattle.walk.specs.Comparisons.{FairComparison, over_least, literals_of};
ghost use Rattle.writing.specs.Numbers.{led, under_lead};

use crate::parts::Part;
use crate::rows::put_row;
use walk::rows::{after_row, row_at};
use walk::tuples::{first_over, over_least};
use walk::{Comparison, Row};

// A clause for each tuple, row by row; t is the sum of a tuple's offsets.
fn put_tuples<P: Part>(c: Comparison, t: i32, lead: Option<i32>, at: usize, part: &mut P) -> usize
    requires { FairComparison c × (t ≡ over_least c) × P.room part.old at (led lead (literals_of c)) }
    ensures { P.adds (led lead (literals_of c)) at part.old result part.new }
{
    let mut place = at;
    let mut tuple = first_over(c, t);
    while let Some(w) = tuple {
        let onward = after_row(c, w);
        place = put_row(lead, row_at(c, w), place, part);
        tuple = onward;
    }
    place
}

// Where the constant is below the least sum, the lead alone is the one clause.
#[tactic(auto, using(crate::proofs::Leads::under_below, crate::proofs::Leads::under_above))]
pub fn put_comparison<P: Part>(c: Comparison, lead: Option<i32>, at: usize, part: &mut P) -> usize
    requires { FairComparison c × P.room part.old at (under_lead lead c) }
    ensures { P.adds (under_lead lead c) at part.old result part.new }
{
    let t = over_least(c);
    if t < 1 {
        return put_row(lead, Row::One(None), at, part);
    }
    put_tuples(c, t, lead, at, part)
}

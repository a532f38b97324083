// A comparison's tuples in rising order: the first, from each the next, and the literals at the present one. Every step yields a tuple.
ghost use Rattle.std.specs.Prelude.{◌≡◌, ◌∷◌, [], Some, min, ◌-◌, ◌≤◌, ◌<◌, pos, ◌+ℤ◌, get_or};
ghost use Rattle.definitions.specs.Tools.{All};
ghost use Rattle.laws.specs.Tuples.{no_term};
ghost use Rattle.walk.specs.Comparisons.{FairComparison, least_of, over_least, literals_of, padded_ranges, placed, Walking, present, to_come};
ghost use Rattle.walk.specs.Walks.{places_of, refill, above, seen, tuples_left, Fine, Over};

use crate::terms::{literal, slot_range};
use crate::{Comparison, Place, Walk};

// How far a place can move up while the places after it hold `after` in all.
pub fn room(p: Place, after: u32) -> u32
    requires { p.k ≤ p.w }
    ensures { result ≡ min (p.w - p.k) after }
{
    (p.w - p.k).min(after)
}

// The last two places hold t: the last as much of it as it can.
fn refilled(a: Place, b: Place, c: Place, t: u32) -> Option<Walk>
    ensures { result ≡ refill a b c t }
{
    let mut y = b;
    let mut z = c;
    let k = t.saturating_sub(c.w);
    y.k = k;
    z.k = t - k;
    Some(Walk { a: a, b: y, c: z })
}

// The first tuple whose offsets have the sum t.
fn lowest(a: Place, b: Place, c: Place, t: u32) -> Option<Walk>
    requires { All Fine (a ∷ b ∷ c ∷ []) }
    ensures { Over (a ∷ b ∷ c ∷ []) result × (tuples_left result ≡ above (a ∷ b ∷ c ∷ []) t) }
{
    let after = b.w + c.w;
    if a.w + after < t {
        return None;
    }
    let mut x = a;
    let k = t.saturating_sub(after);
    x.k = k;
    refilled(x, b, c, t - k)
}

// The tuple after the present one.
pub fn next(w: Walk) -> Option<Walk>
    requires { All Fine (places_of w) }
    ensures { Over (places_of w) result × (tuples_left (Some w) ≡ seen w ∷ tuples_left result) }
{
    let mut a = w.a;
    let mut b = w.b;
    let mut c = w.c;
    if 0 < room(b, c.k) {
        b.k += 1;
        c.k -= 1;
        return Some(Walk { a: a, b: b, c: c });
    }
    let after = b.k + c.k;
    if 0 < room(a, after) {
        a.k += 1;
        return refilled(a, b, c, after - 1);
    }
    None
}

// The least value of the sum within bounds.
pub fn least(c: Comparison) -> i32
    requires { FairComparison c }
    ensures { result ≡ least_of c }
{
    let mut sum: i32 = 0;
    for slot in &c.slots[..c.n] {
        let range = slot_range(*slot);
        sum += range.lo + 1;
    }
    sum
}

// The j-th of three places. Those of terms that the comparison lacks stand in front and hold nothing.
pub fn place(c: Comparison, j: usize) -> Place
    requires { FairComparison c × (j < 3) }
    ensures { result ≡ placed (get_or (padded_ranges c) j no_term) }
{
    if j + c.n < 3 {
        return Place { lo: 0, k: 0, w: 0 };
    }
    let slots = c.slots;
    let range = slot_range(slots[j + c.n - 3]);
    Place {
        lo: range.lo,
        k: 0,
        w: (range.hi - range.lo) as u32,
    }
}

// The sum of a tuple's offsets; below 0 where there is no tuple.
pub fn over_least(c: Comparison) -> i32
    requires { FairComparison c }
    ensures { result ≡ over_least c }
{
    c.constant - least(c) + 1
}

// The first tuple, where the sum of its offsets is known.
pub fn first_over(c: Comparison, t: i32) -> Option<Walk>
    requires { FairComparison c × (t ≡ over_least c) }
    ensures { Walking c result × (to_come c result ≡ literals_of c) }
{
    if t < 0 {
        return None;
    }
    lowest(place(c, 0), place(c, 1), place(c, 2), t as u32)
}

// The first tuple.
pub fn first_tuple(c: Comparison) -> Option<Walk>
    requires { FairComparison c }
    ensures { Walking c result × (to_come c result ≡ literals_of c) }
{
    first_over(c, over_least(c))
}

pub fn bound(p: Place) -> i32
    requires { Fine p }
    ensures { result ≡ p.lo +ℤ pos p.k }
{
    p.lo + p.k as i32
}

// The literal of term i at the present tuple.
pub fn tuple_literal(c: Comparison, w: Walk, i: usize) -> i32
    requires { FairComparison c × Walking c (Some w) × (i < c.n) }
    ensures { result ≡ get_or (present c w) i (pos 0) }
{
    let a = w.a;
    let b = w.b;
    let z = w.c;
    let places = [a, b, z];
    let slots = c.slots;
    let p = places[i + 3 - c.n];
    literal(slots[i], bound(p))
}

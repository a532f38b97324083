// How many tuples a comparison has, by formula.
ghost use Rattle.std.specs.Prelude.{◌≡◌, ◌-◌, ◌<◌, ◌^◌, length, pos, ◌≤ℤ◌};
ghost use Rattle.laws.specs.Counting.{tri};
ghost use Rattle.laws.specs.Counting as counting;
ghost use Rattle.walk.specs.Comparisons.{FairComparison, over_least, literals_of};
ghost use Rattle.measure.specs.Places.{Places};
ghost use Rattle.measure.specs.Places as places;

use walk::Comparison;
use walk::tuples::{over_least, place};

// 1 + 2 + .. + u
fn triangle(u: u32) -> u64
    requires { u < 2 ^ 21 }
    ensures { (result ≡ tri u) × (result < 2 ^ 41) }
{
    let n = u as u64;
    n * (n + 1) / 2
}

// 1 + 2 + .. + (u - d), and 0 where d is larger.
fn beyond(u: u32, d: u32) -> u64
    requires { u < 2 ^ 21 }
    ensures { (result ≡ tri (u - d)) × (result < 2 ^ 41) }
{
    if u <= d {
        return 0;
    }
    triangle(u - d)
}

// Tuples of three places: u is the sum above the least and 1 more, a to c are the widths and 1 more.
fn triples(u: u32, a: u32, b: u32, c: u32) -> u64
    requires { Places u a b c }
    ensures { result ≡ counting.triples u a b c }
{
    let more = triangle(u) + beyond(u, a + b) + beyond(u, a + c) + beyond(u, b + c);
    let fewer = beyond(u, a) + beyond(u, b) + beyond(u, c) + beyond(u, a + b + c);
    more - fewer
}

// The sum of a tuple's offsets, which is t, and 1 more.
fn over(c: Comparison, t: i32) -> u32
    requires { FairComparison c × (t ≡ over_least c) × (pos 0 ≤ℤ over_least c) }
    ensures { (result ≡ places.over c) × (result < 2 ^ 21) }
{
    t as u32 + 1
}

// The width of the j-th of three places and 1 more.
fn wide(c: Comparison, j: usize) -> u32
    requires { FairComparison c × (j < 3) }
    ensures { (result ≡ places.wide c j) × (result < 2 ^ 21) }
{
    let p = place(c, j);
    p.w + 1
}

// A comparison's tuples, where the sum of their offsets is known, and not below 0.
pub fn tuples_over(c: Comparison, t: i32) -> u64
    requires { FairComparison c × (t ≡ over_least c) × (pos 0 ≤ℤ over_least c) }
    ensures { result ≡ length (literals_of c) }
{
    triples(over(c, t), wide(c, 0), wide(c, 1), wide(c, 2))
}

pub fn tuples_of(c: Comparison) -> u64
    requires { FairComparison c × (pos 0 ≤ℤ over_least c) }
    ensures { result ≡ length (literals_of c) }
{
    tuples_over(c, over_least(c))
}

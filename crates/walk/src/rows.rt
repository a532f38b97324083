// Rows: tuples one after another that differ in the last two places alone. Along a row no bound is divided: the literal of the last
// place but one rises, that of the last falls, each by 1 after as many tuples as its coefficient says.
ghost use Rattle.std.specs.Prelude.{◌≡◌, ◌++◌, ◌+◌, ◌-◌, ◌≤◌, ◌<◌, Some, take, drop};
ghost use Rattle.definitions.specs.Tools.{All};
ghost use Rattle.walk.specs.Comparisons.{FairComparison, Walking, present, to_come};
ghost use Rattle.walk.specs.Walks.{places_of, Fine};
ghost use Rattle.walk.specs.Rows.{row_length, row_clauses, Rest, Placed, Holds, Steady, raised, lowered, front_of, in_run, ReadyRun, in_row, Ready};

use crate::terms::literal;
use crate::tuples::{bound, next, room, tuple_literal};
use crate::{Comparison, Place, Row, Run, Slot, Spot, Walk};

// How many tuples the row has from the present one on.
fn row_length(w: Walk) -> u32
    requires { All Fine (places_of w) }
    ensures { result ≡ row_length w }
{
    let b = w.b;
    let c = w.c;
    room(b, c.k) + 1
}

// Behind the present tuple's row: what was to come is the row's clauses, and what is to come then.
pub fn after_row(c: Comparison, w: Walk) -> Option<Walk>
    requires { Walking c (Some w) }
    ensures { Walking c result × (to_come c (Some w) ≡ row_clauses c w ++ to_come c result) }
{
    let a = w.a;
    let mut b = w.b;
    let mut z = w.c;
    let k = room(b, z.k);
    b.k += k;
    z.k -= k;
    next(Walk { a: a, b: b, c: z })
}

// How far it is from k to the next multiple of d.
fn until(d: u32, k: u32) -> u32
    requires { (0 < d) × (k ≤ 1000000) × (d ≤ 64) }
    ensures { Rest d k result }
{
    if d == 1 {
        return 0;
    }
    let m = k % d;
    if m == 0 { 0 } else { d - m }
}

// The literal of a term at its place, ready to go along the row.
fn spot_at(s: Slot, p: Place) -> Spot
    requires { Placed s p }
    ensures { Holds s p.k result }
{
    let d = s.coefficient.unsigned_abs();
    Spot {
        d: d,
        r: until(d, p.k),
        literal: literal(s, bound(p)),
    }
}

// At the next offset.
fn up(p: Spot) -> Spot
    requires { Steady p 1 }
    ensures { result ≡ raised p }
{
    let d = p.d;
    let r = p.r;
    if r == 0 {
        return Spot {
            d: d,
            r: d - 1,
            literal: p.literal + 1,
        };
    }
    Spot {
        d: d,
        r: r - 1,
        literal: p.literal,
    }
}

// At the offset before.
fn down(p: Spot) -> Spot
    requires { Steady p 1 }
    ensures { result ≡ lowered p }
{
    let d = p.d;
    let r = p.r;
    if r + 1 < d {
        return Spot {
            d: d,
            r: r + 1,
            literal: p.literal,
        };
    }
    Spot {
        d: d,
        r: 0,
        literal: p.literal - 1,
    }
}

// The first so many literals of the present tuple: one or none.
fn front_at(c: Comparison, w: Walk, some: usize) -> Option<i32>
    requires { FairComparison c × Walking c (Some w) × (some ≤ c.n) × (some ≤ 1) }
    ensures { front_of result ≡ take some (present c w) }
{
    if some == 0 {
        return None;
    }
    Some(tuple_literal(c, w, 0))
}

// The clauses of the present tuple's row.
pub fn row_at(c: Comparison, w: Walk) -> Row
    requires { FairComparison c × Walking c (Some w) }
    ensures { Ready result × (in_row result ≡ row_clauses c w) }
{
    let n = c.n;
    if n < 2 {
        return Row::One(front_at(c, w, n));
    }
    let slots = c.slots;
    let y = w.b;
    let z = w.c;
    Row::Many(Run {
        front: front_at(c, w, n - 2),
        y: spot_at(slots[n - 2], y),
        z: spot_at(slots[n - 1], z),
        count: row_length(w),
    })
}

// Behind the first clause of the run.
pub fn onward(run: Run) -> Run
    requires { ReadyRun run × (0 < run.count) }
    ensures { ReadyRun result × (result.front ≡ run.front) × (in_run result ≡ drop 1 (in_run run)) }
{
    let front = run.front;
    let y = run.y;
    let z = run.z;
    Run {
        front: front,
        y: up(y),
        z: down(z),
        count: run.count - 1,
    }
}

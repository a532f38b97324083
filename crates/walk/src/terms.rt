// Where the bounds of a term lie, and its literal at each.
ghost use Rattle.std.specs.Prelude.{◌≡◌, pos, ◌-ℤ◌, ◌≤ℤ◌};
ghost use Rattle.walk.specs.Slots.{FairSlot, slot_bounds, order_number, slot_literal};

use crate::division::{ceil_div, floor_div};
use crate::{Range, Slot};

// From (least of the term) - 1 to (greatest of the term).
pub fn slot_range(s: Slot) -> Range
    requires { FairSlot s }
    ensures { (result.lo ≡ (slot_bounds s).lo) × (result.hi ≡ (slot_bounds s).hi) }
{
    let at_lower = s.coefficient * s.lower;
    let at_upper = s.coefficient * s.upper;
    if 0 < s.coefficient {
        return Range {
            lo: at_lower - 1,
            hi: at_upper,
        };
    }
    Range {
        lo: at_upper - 1,
        hi: at_lower,
    }
}

// The number of p(x, c).
fn order_number(s: Slot, c: i32) -> i32
    requires { FairSlot s × ((s.lower -ℤ pos 1) ≤ℤ c) × (c ≤ℤ s.upper) }
    ensures { result ≡ pos (order_number s c) }
{
    s.first as i32 + (c - s.lower) + 1
}

// The number of the term's literal at a bound of its range.
pub fn literal(s: Slot, b: i32) -> i32
    requires { FairSlot s × ((slot_bounds s).lo ≤ℤ b) × (b ≤ℤ (slot_bounds s).hi) }
    ensures { result ≡ slot_literal s b }
{
    if 0 < s.coefficient {
        return order_number(s, floor_div(b, s.coefficient));
    }
    -order_number(s, ceil_div(b, s.coefficient) - 1)
}

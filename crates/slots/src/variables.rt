// An integer variable of an accepted record: its bounds, how many order variables it has, and the number of the first.
ghost use Rattle.std.specs.Prelude.{◌≡◌, ◌≤◌, ◌<◌, length};
ghost use Rattle.definitions.specs.Encoding.{width, first};
ghost use Rattle.laws.specs.Admitted.{GoodBounds};
ghost use Rattle.laws.specs.Boards.{Opens, board_of};
ghost use Rattle.slots.specs.Variables.{bounds_read, BoundsOf, numbered, FirstsOf};

use crate::Bounds;
use fields::unchecked_signed;
use opening::record::Record;

// Where the variable table begins: what laws call table_start.
const TABLE: usize = 11;

pub fn bounds_of(opened: &Record, x: usize) -> Bounds
    requires { x < length (board_of opened.now).bounds }
    ensures { BoundsOf (board_of opened.now) x result }
{
    let bytes = opened.bytes();
    let at = TABLE + 4 * x;
    Bounds {
        lower: unchecked_signed(bytes, at, 2),
        upper: unchecked_signed(bytes, at + 2, 2),
    }
}

// How many order variables a variable has.
pub fn width_of(bounds: Bounds) -> u32
    requires { GoodBounds (bounds_read bounds) }
    ensures { result ≡ width (bounds_read bounds) }
{
    (bounds.upper - bounds.lower) as u32 + 2
}

// The number of p(x, lower - 1); after the last variable, of the first selector.
pub fn first_number(opened: &Record, x: usize) -> u32
    requires { x ≤ length (board_of opened.now).bounds }
    ensures { result ≡ first (board_of opened.now) x }
{
    let mut number = opened.bools() as u32 + 1;
    for y in 0..x {
        number += width_of(bounds_of(opened, y));
    }
    number
}

// The first numbers of all variables, and behind them the first selector's, into a table: added up once, and looked up for each term.
pub fn put_firsts(opened: &Record, firsts: &mut [u32])
    requires { length (board_of opened.now).bounds < length firsts.old }
    ensures firsts { FirstsOf (board_of opened.now) firsts.new }
    ensures opens { Opens opened.now }
{
    let ints = opened.ints();
    let mut next = opened.bools() as u32 + 1;
    for x in 0..ints {
        firsts[x] = next;
        next += width_of(bounds_of(opened, x));
    }
    firsts[ints] = next;
}

// A variable's entry of such a table, and 0 where it has none.
pub fn first_in(firsts: &[u32], x: usize) -> u32
    ensures { result ≡ numbered firsts.now x }
{
    if x < firsts.len() { firsts[x] } else { 0 }
}

// A pass through the rules by value: a cursor that steps from piece to piece of the rules' clauses.
#![tactic(auto)]

ghost use Rattle.std.specs.Prelude.{◌≡◌, ◌<◌};
ghost use Rattle.laws.specs.Again.{There, literals_at};
ghost use Rattle.laws.specs.Pieces.{lone};
ghost use Rattle.rules.specs.Cursors.{Steady, Steps, Comes, at_start, behind, within};

use fields::unchecked;
use reader::Literal;
use reader::rereading::literal_again;

pub mod pass; // pass.rt: a pass as an iterator over pieces

// The kind of a comparison.
const COMPARISON: u32 = 2;

// Where a pass stands in the rules, the record's tail.
#[derive(Clone, Copy)]
pub struct Cursor {
    pub place: usize,
    // of the present clause, still to come
    pub literals: usize,
    // whether the present clause's comparisons have selectors
    pub led: bool,
    // after the present clause
    pub clauses: usize,
    // the next one, counted from 0
    pub selector: usize,
}

// A line of literals with its first selector, or a comparison: alone, or under its selector.
#[derive(Clone, Copy)]
pub enum Piece {
    Line {
        place: usize,
        literals: usize,
        selector: usize,
    },
    Lone {
        place: usize,
        constant: i32,
    },
    Led {
        selector: usize,
        place: usize,
        constant: i32,
    },
}

// A step comes to a piece, or past something that has none, or to the end.
#[derive(Clone, Copy)]
pub enum Stepped {
    Met(Piece, Cursor),
    Passed(Cursor),
    End,
}

pub fn start(clauses: usize) -> Cursor
    ensures { result ≡ at_start clauses }
{
    Cursor {
        place: 0,
        literals: 0,
        led: true,
        clauses,
        selector: 0,
    }
}

// The cursor behind a literal, and its next selector.
fn after(c: Cursor, next: usize, selector: usize) -> Cursor
    requires { 0 < c.literals }
    ensures { result ≡ behind c next selector }
{
    Cursor {
        place: next,
        literals: c.literals - 1,
        selector,
        ..c
    }
}

// Past a literal of the present clause.
fn past_literal(rules: &[u8], c: Cursor) -> Stepped
    requires { Steady rules.now c × (0 < c.literals) }
    ensures { Steps rules.now c result }
{
    let read = literal_again(rules, c.place);
    let next = read.next;
    match read.value {
        Literal::Boolean(_) | Literal::Negated(_) => Stepped::Passed(after(c, next, c.selector)),
        Literal::Comparison { place, constant } => {
            if c.led {
                Stepped::Met(
                    Piece::Led {
                        selector: c.selector,
                        place,
                        constant,
                    },
                    after(c, next, c.selector + 1),
                )
            } else {
                Stepped::Met(Piece::Lone { place, constant }, after(c, next, c.selector))
            }
        }
    }
}

// Whether a clause of n literals, which begin at a place, is a comparison alone: the first literal's kind tells.
fn is_lone(rules: &[u8], n: usize, at: usize) -> bool
    requires { n ≡ 1 → There rules.now at }
    ensures { result ≡ lone (literals_at rules.now n at).value }
{
    if n != 1 {
        return false;
    }
    unchecked(rules, at, 1) == COMPARISON
}

// The cursor before the first literal of the next clause.
fn inside(c: Cursor, next: usize, literals: usize, led: bool) -> Cursor
    requires { 0 < c.clauses }
    ensures { result ≡ within c next literals led }
{
    Cursor {
        place: next,
        literals,
        led,
        clauses: c.clauses - 1,
        ..c
    }
}

// Into the next clause: its line comes first, if it has one.
fn into_clause(rules: &[u8], c: Cursor) -> Stepped
    requires { Steady rules.now c × (c.literals ≡ 0) × (0 < c.clauses) }
    ensures { Steps rules.now c result }
{
    let n = unchecked(rules, c.place, 1) as usize;
    let next = c.place + 1;
    if is_lone(rules, n, next) {
        return Stepped::Passed(inside(c, next, n, false));
    }
    Stepped::Met(
        Piece::Line {
            place: next,
            literals: n,
            selector: c.selector,
        },
        inside(c, next, n, true),
    )
}

// One step of a pass: to the next piece, or past a literal or a clause's count that begins none.
fn step(rules: &[u8], c: Cursor) -> Stepped
    requires { Steady rules.now c }
    ensures { Steps rules.now c result }
{
    if 0 < c.literals {
        return past_literal(rules, c);
    }
    if 0 < c.clauses {
        return into_clause(rules, c);
    }
    Stepped::End
}

// The next piece at or behind the cursor, and where the pass stands behind it.
#[inline(always)]
pub fn next_piece(rules: &[u8], cursor: Cursor) -> Option<(Piece, Cursor)>
    requires { Steady rules.now cursor }
    ensures { Comes rules.now cursor result }
{
    let mut at = cursor;
    loop {
        match step(rules, at) {
            Stepped::Met(piece, behind) => return Some((piece, behind)),
            Stepped::Passed(behind) => at = behind,
            Stepped::End => return None,
        }
    }
}

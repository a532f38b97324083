// The first clause of the record that does not hold (refusal 13), by a pass through the rules.
ghost use Rattle.std.specs.Prelude.{◌≡◌, map};
ghost use Rattle.definitions.specs.Tools.{any};
ghost use Rattle.definitions.specs.Result.{done, each};
ghost use Rattle.definitions.specs.Reading.{times, read_literal};
ghost use Rattle.definitions.specs.Meaning.{assigned, holds};
ghost use Rattle.laws.specs.Again.{literals_at, clauses_at};
ghost use Rattle.lent.specs.Said.{said_found};
ghost use Rattle.rules.specs.Cursors.{Held, Sound, at_start};
ghost use Rattle.judge.specs.Suited.{Suiting};
ghost use Rattle.judge.specs.Clauses.{begun, holds_in};

use crate::literals::{compares, holds};
use reader::rereading::literal_again;
use rules::pass::Pass;
use rules::{Piece, start};

// Whether one of n literals holds.
fn any_holds(rules: &[u8], values: &[i32], booleans: &[u8], n: usize, at: usize) -> bool
    requires { Suiting values.now booleans.now (λ ctx. times n (read_literal ctx) rules.now at ≡ done (literals_at rules.now n at)) }
    ensures { result ≡ any (holds (assigned values.now booleans.now)) (literals_at rules.now n at).value }
{
    let mut place = at;
    for _ in 0..n {
        let read = literal_again(rules, place);
        if holds(rules, values, booleans, read.value) {
            return true;
        }
        place = read.next;
    }
    false
}

// Whether a piece's clause holds: a comparison under its selector belongs to its line, which was met before.
fn piece_holds(rules: &[u8], values: &[i32], booleans: &[u8], piece: Piece) -> bool
    requires { Suiting values.now booleans.now (λ ctx. Held ctx rules.now piece) }
    ensures { result ≡ holds_in (assigned values.now booleans.now) rules.now piece }
{
    match piece {
        Piece::Line {
            place,
            literals,
            ..
        } => any_holds(rules, values, booleans, literals, place),
        Piece::Lone { place, constant } => compares(rules, values, place, constant),
        Piece::Led { .. } => true,
    }
}

// How many of the record's clauses a piece begins.
fn clauses_in(piece: Piece) -> usize
    ensures { result ≡ begun piece }
{
    match piece {
        Piece::Line { .. } | Piece::Lone { .. } => 1,
        Piece::Led { .. } => 0,
    }
}

// Of the clauses that stand at the start of any rules, and were read in a context that the values suit.
pub fn first_failing(rules: &[u8], values: &[i32], booleans: &[u8], clauses: usize) -> Option<usize>
    requires { Suiting values.now booleans.now (λ ctx. Sound ctx rules.now (at_start clauses)) }
    ensures { said_found 13 result ≡ each 13 0 (map (any (holds (assigned values.now booleans.now))) (clauses_at rules.now clauses 0).value) }
{
    let pieces = Pass {
        rules,
        cursor: start(clauses),
    };
    let mut number = 0;
    for piece in pieces {
        if !piece_holds(rules, values, booleans, piece) {
            return Some(number);
        }
        number += clauses_in(piece);
    }
    None
}

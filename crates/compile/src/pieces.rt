// The clauses of the rules, piece by piece: each piece goes into the part of the list that follows the numbers already written.
ghost use Rattle.std.specs.Prelude.{◌≡◌, ◌≤◌, length};
ghost use Rattle.laws.specs.Limits.{selectors_limit};
ghost use Rattle.laws.specs.Boards.{board_of};
ghost use Rattle.laws.specs.Pieces.{pieces_from};
ghost use Rattle.laws.specs.Written.{written};
ghost use Rattle.laws.specs.Reread.{context_of};
ghost use Rattle.opening.specs.Headers.{tail_of};
ghost use Rattle.rules.specs.Cursors.{Held, said_piece, selectors_to};
ghost use Rattle.compile.specs.Lists.{piece_numbers, pieces_numbers};

use rules::Piece;
use rules::pass::pieces;
use slots::numbered::Numbered;
use writing::comparisons::put_comparison;
use writing::lines::put_line;
use writing::parts::{AsNumbers, Part};

pub fn put_piece<P: Part>(numbered: &Numbered, piece: Piece, at: usize, part: &mut P) -> usize
    requires { Held (context_of (board_of numbered.now)) (tail_of numbered.now) piece × (selectors_to piece ≤ selectors_limit) × P.room part.old at (piece_numbers (board_of numbered.now) (said_piece (tail_of numbered.now) piece)) }
    ensures { P.adds (piece_numbers (board_of numbered.now) (said_piece (tail_of numbered.now) piece)) at part.old result part.new }
{
    let selectors = numbered.selectors();
    let rules = numbered.record().rules();
    match piece {
        Piece::Line {
            place,
            literals,
            selector,
        } => put_line(
            rules,
            place,
            literals,
            selectors + selector as u32,
            at,
            part,
        ),
        Piece::Lone { place, constant } => {
            let c = numbered.ready(rules, place, constant);
            put_comparison(c, None, at, part)
        }
        Piece::Led {
            selector,
            place,
            constant,
        } => {
            let number = selectors + selector as u32;
            let negated = -(number as i32);
            let c = numbered.ready(rules, place, constant);
            put_comparison(c, Some(negated), at, part)
        }
    }
}

// Into a list from its start on.
fn put_first(numbered: &Numbered, piece: Piece, list: &mut [i32]) -> usize
    requires { Held (context_of (board_of numbered.now)) (tail_of numbered.now) piece × (selectors_to piece ≤ selectors_limit) × (length (piece_numbers (board_of numbered.now) (said_piece (tail_of numbered.now) piece)) ≤ length list.old) }
    ensures { (result ≡ length (piece_numbers (board_of numbered.now) (said_piece (tail_of numbered.now) piece))) × (list.new ≡ written (piece_numbers (board_of numbered.now) (said_piece (tail_of numbered.now) piece)) list.old) }
{
    let mut part = AsNumbers { list };
    put_piece(numbered, piece, 0, &mut part)
}

pub fn put_pieces(numbered: &Numbered, list: &mut [i32]) -> usize
    requires { length (pieces_numbers (board_of numbered.now) (pieces_from 0 (board_of numbered.now).clauses)) ≤ length list.old }
    ensures { (result ≡ length (pieces_numbers (board_of numbered.now) (pieces_from 0 (board_of numbered.now).clauses))) × (list.new ≡ written (pieces_numbers (board_of numbered.now) (pieces_from 0 (board_of numbered.now).clauses)) list.old) }
{
    let mut at = 0;
    for piece in pieces(numbered.record()) {
        at += put_first(numbered, piece, &mut list[at..]);
    }
    at
}

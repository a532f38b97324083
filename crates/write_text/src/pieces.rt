// The clauses of the rules, piece by piece. A piece is told its place and is lent no rest of the bytes: the text may be longer than these.
ghost use Rattle.laws.specs.Boards.{board_of};
ghost use Rattle.laws.specs.Pieces.{pieces_from};
ghost use Rattle.compile.specs.Lists.{pieces_numbers};

use compile::pieces::put_piece;
use rules::pass::pieces;
use slots::numbered::Numbered;
use writing::parts::Part;

pub fn add_pieces<P: Part>(numbered: &Numbered, at: usize, part: &mut P) -> usize
    requires { P.room part.old at (pieces_numbers (board_of numbered.now) (pieces_from 0 (board_of numbered.now).clauses)) }
    ensures { P.adds (pieces_numbers (board_of numbered.now) (pieces_from 0 (board_of numbered.now).clauses)) at part.old result part.new }
{
    let mut to = at;
    for piece in pieces(numbered.record()) {
        to = put_piece(numbered, piece, to, part);
    }
    to
}

// A pass through rules: an iterator over their pieces. `pieces` is that of an opened record.
ghost use Rattle.std.specs.Prelude.{◌≡◌, length};
ghost use Rattle.std.specs.Iterator.{at_most};
ghost use Rattle.laws.specs.Boards.{Opens, board_of};
ghost use Rattle.opening.specs.Headers.{tail_of};
ghost use Rattle.rules.specs.Cursors.{Steady, todo, at_start};
ghost use Rattle.rules.specs.Nexts.{Next};

use crate::{Cursor, Piece, next_piece, start};
use opening::record::Record;

// The rules, and where the pass stands in them.
#[derive(Drop)]
pub struct Pass<'a> {
    pub rules: &'a [u8],
    pub cursor: Cursor,
}

impl<'a> Iterator for Pass<'a> {
    type Item = Piece;

    ghost can_next = { λ s. Steady s.rules.now s.cursor };

    ghost next_gives = { λ s r t. (t.rules.now ≡ s.rules.now) × Next s.rules.now s.cursor r t.cursor };

    ghost remaining = { λ s. at_most (todo s.cursor) };

    #[inline(always)]
    fn next(&mut self) -> Option<Piece> {
        let (piece, behind) = next_piece(self.rules, self.cursor)?;
        self.cursor = behind;
        Some(piece)
    }
}

pub fn pieces<'a>(opened: &Record<'a>) -> Pass<'a>
    ensures rules { result.rules.now ≡ tail_of opened.now }
    ensures start { result.cursor ≡ at_start (length (board_of opened.now).clauses) }
    ensures opens { Opens opened.now }
{
    Pass {
        rules: opened.rules(),
        cursor: start(opened.clauses()),
    }
}

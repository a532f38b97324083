// What a piece of the rules adds to the sizes.
ghost use Rattle.std.specs.Prelude.{◌≤◌, ◌<◌, ◌^◌, length};
ghost use Rattle.definitions.specs.Board.{bounds_of};
ghost use Rattle.laws.specs.Boards.{board_of};
ghost use Rattle.laws.specs.Reread.{comparison_at, context_of, Stands};
ghost use Rattle.laws.specs.Sizes.{piece_places};
ghost use Rattle.rules.specs.Cursors.{Held, said_piece};
ghost use Rattle.measure.specs.Shares.{ShareOf, ShareUnder};

use crate::Share;
use crate::count::tuples_over;
use opening::record::Record;
use rules::Piece;
use slots::comparisons::ready;
use walk::tuples::over_least;

// A comparison's clauses, each led by as many literals as is said.
fn comparison_share(opened: &Record, rules: &[u8], lead: u64, place: usize, constant: i32) -> Share
    requires { Stands (length (board_of opened.now).bounds) rules.now place constant × (lead ≤ 1) }
    ensures { ShareUnder (bounds_of (board_of opened.now)) lead (comparison_at rules.now place constant) result }
{
    // counting needs no first numbers
    let unnumbered = [0u32; 0];
    let c = ready(opened, &unnumbered, rules, place, constant);
    let t = over_least(c);
    if t < 1 {
        return Share {
            clauses: 1,
            places: lead + 1,
            selectors: lead,
        };
    }
    let tuples = tuples_over(c, t);
    Share {
        clauses: tuples,
        places: tuples * (lead + c.n as u64 + 1),
        selectors: lead,
    }
}

// A line is one clause; a comparison's clauses are counted, never walked.
pub fn share_of(opened: &Record, rules: &[u8], piece: Piece) -> Share
    requires { Held (context_of (board_of opened.now)) rules.now piece × (piece_places (bounds_of (board_of opened.now)) (said_piece rules.now piece) < 2 ^ 63) }
    ensures { ShareOf (bounds_of (board_of opened.now)) (said_piece rules.now piece) result }
{
    match piece {
        Piece::Line { literals, .. } => Share {
            clauses: 1,
            places: literals as u64 + 1,
            selectors: 0,
        },
        Piece::Lone { place, constant } => comparison_share(opened, rules, 0, place, constant),
        Piece::Led {
            place,
            constant,
            ..
        } => comparison_share(opened, rules, 1, place, constant),
    }
}

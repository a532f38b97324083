// The pieces of the rules and the variables together: the sizes of an accepted record by kind, and N, M and K.
ghost use Rattle.std.specs.Prelude.{◌≡◌, []};
ghost use Rattle.definitions.specs.Board.{bounds_of};
ghost use Rattle.laws.specs.Boards.{Opens, board_of};
ghost use Rattle.laws.specs.Pieces.{pieces_from};
ghost use Rattle.measure.specs.Shares.{Fit, Adding, plus};
ghost use Rattle.measure.specs.Said.{kinds_of, totals_of};

use crate::pieces::share_of;
use crate::{Kinds, Part, Share};
use definitions::Sizes;
use opening::record::Record;
use rules::pass::pieces;
use slots::variables::first_number;

impl Share {
    // A total, and a further share.
    fn and(self, share: Share) -> Share
        requires { Fit (plus self share) }
        ensures { result ≡ plus self share }
    {
        Share {
            clauses: self.clauses + share.clauses,
            places: self.places + share.places,
            selectors: self.selectors + share.selectors,
        }
    }
}

// All pieces of the rules.
fn rules_share(opened: &Record) -> Share
    ensures { Adding (bounds_of (board_of opened.now)) (pieces_from 0 (board_of opened.now).clauses) [] result }
{
    let mut total = Share {
        clauses: 0,
        places: 0,
        selectors: 0,
    };
    let rules = opened.rules();
    for piece in pieces(opened) {
        total = total.and(share_of(opened, rules, piece));
    }
    total
}

// A variable has width + 1 axioms, in 3 * width + 1 places.
pub fn kinds_of(opened: &Record) -> Kinds
    ensures kinds { result ≡ kinds_of (board_of opened.now) }
    ensures opens { Opens opened.now }
{
    let ints = opened.ints();
    let bools = opened.bools();
    let share = rules_share(opened);
    let widths = first_number(opened, ints) as usize - 1 - bools;
    Kinds {
        booleans: bools,
        orders: widths,
        selectors: share.selectors as usize,
        axioms: Part {
            clauses: widths + ints,
            places: 3 * widths + ints,
        },
        rules: Part {
            clauses: share.clauses as usize,
            places: share.places as usize,
        },
    }
}

// N, M and K are sums of kinds.
pub fn totals_of(opened: &Record) -> Sizes
    ensures totals { result ≡ totals_of (board_of opened.now) }
    ensures opens { Opens opened.now }
{
    let kinds = kinds_of(opened);
    let axioms = kinds.axioms;
    let rules = kinds.rules;
    Sizes {
        n: kinds.booleans + kinds.orders + kinds.selectors,
        m: axioms.clauses + rules.clauses,
        k: axioms.places + rules.places,
    }
}

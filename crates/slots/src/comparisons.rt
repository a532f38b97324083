// A comparison of an accepted record: its terms, and the comparison made ready to walk.
ghost use Rattle.std.specs.Prelude.{◌≡◌, ◌+◌, ◌*◌, ◌≤◌, ◌<◌, length};
ghost use Rattle.definitions.specs.Tools.{All};
ghost use Rattle.laws.specs.Admitted.{GoodTerm};
ghost use Rattle.laws.specs.Boards.{Opens, board_of};
ghost use Rattle.laws.specs.Reread.{term_at, terms_at, comparison_at, TermsStand, Stands};
ghost use Rattle.walk.specs.Slots.{slot_of};
ghost use Rattle.slots.specs.Variables.{numbered};
ghost use Rattle.slots.specs.Ready.{Small, ReadyBy};
ghost use Rattle.slots.specs.Terms.{term_read, TermsOf};

use crate::variables::{bounds_of, first_in};
use crate::{Term, Terms};
use fields::{unchecked, unchecked_signed};
use opening::record::Record;
use walk::{Comparison, Slot};

fn term_at(rules: &[u8], at: usize) -> Term
    requires { at + 3 ≤ length rules.now }
    ensures { term_read result ≡ term_at rules.now at }
{
    Term {
        coefficient: unchecked_signed(rules, at, 1),
        variable: unchecked(rules, at + 1, 2) as usize,
    }
}

// The terms of the comparison whose term count stands at a place.
pub fn terms_at(rules: &[u8], place: usize) -> Terms
    requires { TermsStand rules.now place }
    ensures { TermsOf (terms_at rules.now place) result }
{
    let n = unchecked(rules, place, 1) as usize;
    let mut terms = [Term {
        coefficient: 0,
        variable: 0,
    }; 3];
    for i in 0..n {
        terms[i] = term_at(rules, place + 1 + 3 * i);
    }
    Terms { n: n, terms: terms }
}

// The term with its variable's bounds and first number.
fn slot_of(opened: &Record, firsts: &[u32], term: Term) -> Slot
    requires { GoodTerm (length (board_of opened.now).bounds) (term_read term) }
    ensures { result ≡ slot_of (board_of opened.now) (numbered firsts.now) (term_read term) }
{
    let x = term.variable;
    let bounds = bounds_of(opened, x);
    Slot {
        coefficient: term.coefficient,
        lower: bounds.lower,
        upper: bounds.upper,
        first: first_in(firsts, x),
    }
}

// The slot of term i, counted from 0, of the comparison whose term count, n, stands at a place; where there is none, of no use.
fn slot_at(opened: &Record, firsts: &[u32], rules: &[u8], place: usize, n: usize, i: usize) -> Slot
    requires { TermsStand rules.now place × All (GoodTerm (length (board_of opened.now).bounds)) (terms_at rules.now place) × (n ≡ length (terms_at rules.now place)) }
    ensures { i < n → result ≡ slot_of (board_of opened.now) (numbered firsts.now) (term_at rules.now (place + 1 + 3 * i)) }
{
    if n <= i {
        return Slot {
            coefficient: 0,
            lower: 0,
            upper: 0,
            first: 0,
        };
    }
    slot_of(opened, firsts, term_at(rules, place + 1 + 3 * i))
}

// The comparison whose term count stands at a place of the rules; a table gives the first numbers, and those that it lacks are 0.
// Its slots are no array until all are there: one that is filled by index and then copied is slow.
pub fn ready(
    opened: &Record,
    firsts: &[u32],
    rules: &[u8],
    place: usize,
    constant: i32,
) -> Comparison
    requires { Small (board_of opened.now) firsts.now × Stands (length (board_of opened.now).bounds) rules.now place constant }
    ensures ready { ReadyBy (board_of opened.now) (numbered firsts.now) (comparison_at rules.now place constant) result }
    ensures opens { Opens opened.now }
{
    // the call tells that the record was opened, so that its bounds are good ones
    let _ints = opened.ints();
    let n = unchecked(rules, place, 1) as usize;
    let a = slot_at(opened, firsts, rules, place, n, 0);
    let b = slot_at(opened, firsts, rules, place, n, 1);
    let c = slot_at(opened, firsts, rules, place, n, 2);
    Comparison {
        n: n,
        slots: [a, b, c],
        constant: constant,
    }
}

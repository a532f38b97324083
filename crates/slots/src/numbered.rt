// A record with the first number of each of its variables and of its selectors. Contracts see the record's bytes alone.
ghost use Rattle.std.specs.Prelude.{◌≡◌, ℕ, List, length};
ghost use Rattle.definitions.specs.Encoding.{first};
ghost use Rattle.laws.specs.Boards.{Opens, board_of};
ghost use Rattle.laws.specs.Reread.{comparison_at, Stands};
ghost use Rattle.slots.specs.Variables.{FirstsOf};
ghost use Rattle.slots.specs.Ready.{ReadyFor};

use crate::FIRSTS;
use crate::comparisons::ready;
use crate::variables::put_firsts;
use opening::record::Record;
use std::marker::Model;
use walk::Comparison;

#[derive(Drop)]
pub struct Numbered<'a> {
    opened: &'a Record<'a>,
    firsts: [u32; FIRSTS],
}

impl<'a> Model for Numbered<'a> {
    ghost Value = { List ℕ };

    ghost view = { λ n. n.opened.now };

    // the table has the board's first numbers
    ghost invariant = { λ n. Opens n.opened.now × FirstsOf (board_of n.opened.now) n.firsts };
}

impl<'a> Numbered<'a> {
    #[inline(always)]
    pub fn new(opened: &'a Record<'a>) -> Numbered<'a>
        ensures { result ≡ opened.now }
    {
        let mut numbered = Numbered {
            opened,
            firsts: [0u32; FIRSTS],
        };
        prove!(opened.ints() < FIRSTS);
        put_firsts(opened, &mut numbered.firsts);
        numbered
    }

    pub fn record(&self) -> &'a Record<'a>
        ensures bytes { result.now ≡ self.now }
        ensures opens { Opens self.now }
    {
        self.opened
    }

    // The number of the first selector.
    pub fn selectors(&self) -> u32
        ensures number { result ≡ first (board_of self.now) (length (board_of self.now).bounds) }
        ensures opens { Opens self.now }
    {
        self.firsts[self.opened.ints()]
    }

    // The comparison whose term count stands at a place of the rules, with the board's own numbers.
    pub fn ready(&self, rules: &[u8], place: usize, constant: i32) -> Comparison
        requires { Stands (length (board_of self.now).bounds) rules.now place constant }
        ensures ready { ReadyFor (board_of self.now) (comparison_at rules.now place constant) result }
        ensures opens { Opens self.now }
    {
        ready(self.opened, &self.firsts, rules, place, constant)
    }
}

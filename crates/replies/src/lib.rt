// DIMACS text and solvers' replies, read from bytes (02, P2).
#![tactic(auto)]

ghost use Rattle.std.specs.Prelude.{◌≡◌};
ghost use Rattle.definitions.specs.declared.Refusal.{Refusal};

pub mod bytes; // bytes.rt: tests of a byte
pub mod numeral; // numeral.rt: a number that is being read
pub mod parts; // parts.rt: a word, a count, a number
pub mod clauses; // clauses.rt: the numbers of a clause list
pub mod values; // values.rt: the numbers of a reply
pub mod reply; // reply.rt: a whole reply
pub mod line; // line.rt: the first line of text
pub mod lists; // lists.rt: text read into a lent list
pub mod literals; // literals.rt: a pass through the literals of a good reply
pub mod marks; // marks.rt: a variable that does not stand in a reply exactly once
pub mod models; // models.rt: a reply read into a lent model

use definitions::{Got, Refusal};

// Where the bytes depart from good text: the detail of 18.
#[derive(Clone, Copy)]
pub struct Bad {
    pub place: usize,
}

impl From<Bad> for Refusal {
    ghost from_gives = { λ bad refusal. refusal ≡ Refusal.TextWrong bad.place };

    fn from(bad: Bad) -> Refusal {
        Refusal::TextWrong { place: bad.place }
    }
}

// A number: the place of its first byte, whether it has a minus, and its size. They stand apart since -0 is not 0
// while it is read, and a size goes up to 2^32 - 1.
#[derive(Clone, Copy)]
pub struct Number {
    pub start: usize,
    pub minus: bool,
    pub size: u32,
}

// What stands past blanks: the end, at this place, or a number.
#[derive(Clone, Copy)]
pub enum Next {
    End(usize),
    Number(Got<Number>),
}

// The first line of text, N and M, and the place after it.
#[derive(Clone, Copy)]
pub struct Head {
    pub n: u32,
    pub m: u32,
    pub next: usize,
}

// A reply's literal, whether a line begins after it, and the place after it.
#[derive(Clone, Copy)]
pub struct Literal {
    pub number: Number,
    pub line: bool,
    pub next: usize,
}

// A reply's literals: how many, and whether they are of 1, 2, .. in this order.
#[derive(Clone, Copy)]
pub struct Listed {
    pub count: usize,
    pub rising: bool,
}

// A reply's model: its literals, whose lines begin at `from`.
#[derive(Clone, Copy)]
pub struct Heard {
    pub from: usize,
    pub listed: Listed,
}

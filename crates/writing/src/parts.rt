// What the numbers of clauses are added to: a lent list takes them as they are, and lent bytes take their text. Each function that
// adds is told a place, and answers the place behind.
ghost use Rattle.std.specs.Prelude.{◌≡◌, ◌+◌, ◌≤◌, ◌<◌, ℕ, ℤ, List, [], ◌∷◌, length};
ghost use Rattle.definitions.specs.Dimacs.{entry};
ghost use Rattle.laws.specs.Limits.{numbers_limit};
ghost use Rattle.text.specs.Entries.{entries};
ghost use Rattle.writing.specs.Adds.{Adds, Counts};
ghost use Rattle.writing.specs.Axioms.{steps_from};
ghost use Rattle.writing.specs.Parts.{IsPart, list_is, text_is};

use std::mem;
use text::lengths::digits;
use text::numbers::put_entry;

pub trait Part: Drop {
    // There is room for these numbers from a place on.
    ghost room: { Self → ℕ → List ℤ → Type 0 };

    // These numbers are added from a place on: the place behind them, and what is left.
    ghost adds: { List ℤ → ℕ → Self → ℕ → Self → Type 0 };

    fn add(&mut self, number: i32, at: usize) -> usize
        requires { room self.old at (number ∷ []) }
        ensures { adds (number ∷ []) at self.old result self.new };

    // The clause of a step, from the order variable of this number to the next: not this one, or the next.
    fn add_step(&mut self, number: u32, at: usize) -> usize
        requires { (number + 1 < numbers_limit) × room self.old at (steps_from number 1) }
        ensures { adds (steps_from number 1) at self.old result self.new }
    {
        let second = self.add(-(number as i32), at);
        let end = self.add((number + 1) as i32, second);
        self.add(0, end)
    }

    // What was lent, taken out: a long loop holds it by itself, so that it need not be looked up for each number, and puts it back.
    fn taken(&mut self) -> Self
        ensures { result ≡ self.old };

    ghost is: { IsPart room adds };
}

// The numbers as they are, in a lent list.
#[derive(Drop)]
pub struct AsNumbers<'a> {
    pub list: &'a mut [i32],
}

impl Part for AsNumbers<'_> {
    ghost room = { λ s at xs. at + length xs ≤ length s.list.now };

    ghost adds = { λ xs at s n t. Adds xs at s.list.now n t.list.now × (t.list.ghost_name ≡ s.list.ghost_name) };

    ghost is = { list_is (λ s. s.list) };

    fn add(&mut self, number: i32, at: usize) -> usize {
        self.list[at] = number;
        at + 1
    }

    // All three at once.
    fn add_step(&mut self, number: u32, at: usize) -> usize {
        self.list[at] = -(number as i32);
        self.list[at + 1] = (number + 1) as i32;
        self.list[at + 2] = 0;
        at + 3
    }

    fn taken(&mut self) -> Self {
        AsNumbers {
            list: mem::take(&mut self.list),
        }
    }
}

// How many bytes a number takes, with what parts it from the next.
fn entry_length(number: i32) -> usize
    ensures { result ≡ length (entry number) }
{
    if 0 < number {
        return digits(number.unsigned_abs() as u64) + 1;
    }
    if number < 0 {
        return digits(number.unsigned_abs() as u64) + 2;
    }
    2
}

// The numbers as text, in lent bytes. Where the text is longer than these, places are counted and nothing is written.
#[derive(Drop)]
pub struct AsText<'a> {
    pub out: &'a mut [u8],
}

impl Part for AsText<'_> {
    ghost room = { λ s at xs. Counts at (entries xs) };

    ghost adds = { λ xs at s n t. Adds (entries xs) at s.out.now n t.out.now × (t.out.ghost_name ≡ s.out.ghost_name) };

    ghost is = { text_is (λ s. s.out) };

    fn add(&mut self, number: i32, at: usize) -> usize {
        let next = at + entry_length(number);
        if self.out.len() < next {
            return next;
        }
        at + put_entry(number, &mut self.out[at..])
    }

    fn taken(&mut self) -> Self {
        AsText {
            out: mem::take(&mut self.out),
        }
    }
}

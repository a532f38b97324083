// A pass through the literals of a reply.
ghost use Rattle.std.specs.Prelude.{◌≡◌, ◌-◌, length, true};
ghost use Rattle.std.specs.Iterator.{at_most};
ghost use Rattle.replies.specs.Gives.{Gives};

use super::Number;
use super::values::value_at;

// Where the pass stands, and whether a line begins there.
#[derive(Drop)]
pub struct Literals<'a> {
    pub text: &'a [u8],
    pub n: u32,
    pub line: bool,
    pub at: usize,
}

impl<'a> Iterator for Literals<'a> {
    type Item = Number;

    ghost can_next = { λ s. Unit {0} };

    ghost next_gives = { λ s r t. (t.text.now ≡ s.text.now) × (t.n ≡ s.n) × Gives s.n s.line s.at s.text.now r t.line t.at };

    ghost remaining = { λ s. at_most (length s.text.now - s.at) };

    fn next(&mut self) -> Option<Number> {
        let Ok(Some(literal)) = value_at(self.text, self.n, self.line, self.at) else {
            return None;
        };
        self.line = literal.line;
        self.at = literal.next;
        Some(literal.number)
    }
}

impl<'a> Literals<'a> {
    // The literals of a reply whose lines begin at a place. A fault ends them: text that was checked has none.
    pub fn from(text: &'a [u8], n: u32, place: usize) -> Literals<'a>
        ensures text { result.text.now ≡ text.now }
        ensures n { result.n ≡ n }
        ensures line { result.line ≡ true }
        ensures at { result.at ≡ place }
    {
        Literals {
            text,
            n,
            line: true,
            at: place,
        }
    }
}

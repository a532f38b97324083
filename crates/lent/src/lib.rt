// Tests of lent lists that several operations make.
#![tactic(auto)]

ghost use Rattle.std.specs.Prelude.{◌≡◌, ◌≤◌, length};
ghost use Rattle.definitions.specs.Meaning.{on};
ghost use Rattle.definitions.specs.Operations.{bits};
ghost use Rattle.lent.specs.Said.{said_found};

// The index of the first byte that is neither 0 nor 1 (refusal 12).
pub fn first_bad_byte(bytes: &[u8]) -> Option<usize>
    ensures { said_found 12 result ≡ bits bytes.now }
{
    bytes.iter().position(|byte| *byte > 1)
}

// Numbers count from 1: that of v stands at v - 1.
#[tactic(auto, unfolding(definitions::specs::Meaning::on))]
pub fn is_on(bytes: &[u8], v: usize) -> bool
    requires { (1 ≤ v) × (v ≤ length bytes.now) }
    ensures { result ≡ on bytes.now v }
{
    bytes[v - 1] == 1
}

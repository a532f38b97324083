// A whole reply.
ghost use Rattle.std.specs.Prelude.{◌≡◌, ◌≤◌, length, drop, IfOk};
ghost use Rattle.definitions.specs.TextReading.{read_reply};
ghost use Rattle.replies.specs.Parts.{summed, none_at, model_at};
ghost use Rattle.replies.specs.Said.{said_nothing, said_model, ModelIn, said_heard, HeardIn};

use super::parts::word_at;
use super::values::count_values;
use super::{Bad, Heard};

fn no_model(text: &[u8], from: usize) -> Result<(), Bad>
    ensures { said_nothing result ≡ summed (none_at from (drop from text.now)) }
{
    let next = word_at(text, b"UNSATISFIABLE\n", from)?;
    if next < text.len() {
        return Err(Bad { place: next });
    }
    Ok(())
}

fn a_model(text: &[u8], n: u32, at: usize) -> Result<Heard, Bad>
    requires { at ≤ length text.now }
    ensures says { said_model result ≡ summed (model_at n at (drop at text.now)) }
    ensures lines { IfOk result (ModelIn n text.now (model_at n at (drop at text.now))) }
{
    let from = word_at(text, b"SATISFIABLE\n", at)?;
    let listed = count_values(text, n, from)?;
    Ok(Heard { from, listed })
}

// No model, or the count of literals and whether they are in order, or the detail of 18.
pub fn check_reply(text: &[u8], n: u32) -> Result<Option<Heard>, Bad>
    ensures says { said_heard result ≡ summed (read_reply n text.now) }
    ensures lines { IfOk result (HeardIn n text.now (read_reply n text.now)) }
{
    let next = word_at(text, b"s ", 0)?;
    if next < text.len() && text[next] == b'U' {
        no_model(text, next)?;
        return Ok(None);
    }
    let heard = a_model(text, n, next)?;
    Ok(Some(heard))
}

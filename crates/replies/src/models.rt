// A reply read into a lent model.
ghost use Rattle.std.specs.Prelude.{◌≡◌, length};
ghost use Rattle.definitions.specs.Operations.{◌leaves◌};
ghost use Rattle.definitions.specs.Answers.{said_replied};
ghost use Rattle.definitions.specs.TextOperations.{model_of};
ghost use Rattle.replies.specs.Parts.{literals_from, HasModel};
ghost use Rattle.replies.specs.Marks.{Cleared};
ghost use Rattle.replies.specs.Models.{with_literal, Told, taken_from};
ghost use Rattle.replies.specs.Outcome.{ReplyAllowed};

use super::literals::Literals;
use super::marks::{least_not_once, sought_from};
use super::reply::check_reply;
use super::{Heard, Number};
use definitions::{Refusal, Reply};

// Byte v - 1 is of variable v.
fn put_literal(model: &mut [u8], literal: Number)
    ensures { model.new ≡ with_literal literal.minus literal.size model.old }
{
    if literal.minus {
        return;
    }
    if literal.size < 1 {
        return;
    }
    let at = literal.size as usize - 1;
    if at < model.len() {
        model[at] = 1;
    }
}

fn put_literals(text: &[u8], n: u32, from: usize, model: &mut [u8])
    requires good { HasModel n from text.now }
    requires cleared { Cleared model.old }
    ensures { model.new ≡ model_of (length model.old) (literals_from n from text.now) }
{
    for literal in Literals::from(text, n, from) {
        put_literal(model, literal);
    }
}

// A reply's literals: 19, then 11, then the model.
fn take_model(text: &[u8], n: u32, heard: Heard, model: &mut [u8]) -> Result<Reply, Refusal>
    requires { Told n heard.from heard.listed.count heard.listed.rising text.now }
    ensures { (said_replied result leaves model.new) ≡ taken_from n heard.from text.now model.old }
{
    if let Some(variable) = least_not_once(text, n, heard.from, sought_from(n, heard.listed)) {
        return Err(Refusal::VariableNotOnce { number: variable });
    }
    if model.len() != n as usize {
        return Err(Refusal::LentWrong { wanted: n as usize });
    }
    model.fill(0);
    put_literals(text, n, heard.from, model);
    Ok(Reply::Model)
}

// ReadReply: a model, or that there is none; a refusal leaves the lent bytes as they were.
pub fn read_reply(n: u32, text: &[u8], model: &mut [u8]) -> Result<Reply, Refusal>
    ensures { ReplyAllowed n text.now model.old result model.new }
{
    match check_reply(text, n)? {
        None => Ok(Reply::None),
        Some(heard) => take_model(text, n, heard, model),
    }
}

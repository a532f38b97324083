// The operations for callers. The functions `basmuthar_..` say an answer in four numbers, as C has it: crate basmuthar_c exports them
// under their names (include/basmuthar.h says what a caller owes and is given). A crate in Rattle depends on basmuthar and definitions,
// and calls the operations by their own names.
#![tactic(auto)]

ghost use Rattle.std.specs.Prelude.{◌≡◌, List, ℕ};
ghost use Rattle.definitions.specs.Answers.{answered, hour_said, reply_said, said_hour, sizes_said};
ghost use Rattle.basmuthar.specs.Interface.{answer_written, hour_numbers, hours_written, length_numbers, reply_numbers, sizes_numbers, verdict_numbers};
ghost use Rattle.basmuthar.specs.Outcome.{ClosingLeaves, CompileLeaves, DecodeLeaves, ImageLeaves, JudgeLeaves, ReadReplyLeaves, ReadTextLeaves, SizeLeaves, WriteTextLeaves};

pub use answers::{detail_of, number_of};
pub use closing::closing;
pub use compile::compile;
pub use decode::decode;
pub use definitions::{Hour, Refusal, Reply, Sizes};
pub use image::image;
pub use judge::judge;
pub use replies::lists::read_text;
pub use replies::models::read_reply;
pub use size::size;
pub use write_text::write_text;

// What is answered, in the three numbers after 0.
trait Numbered {
    ghost numbers: { Self → List ℕ };

    fn numbers(&self) -> [u64; 3]
        ensures { result ≡ numbers self.now };
}

impl Numbered for Sizes {
    ghost numbers = { λ sizes. sizes_numbers (sizes_said sizes) };

    fn numbers(&self) -> [u64; 3] {
        [self.n as u64, self.m as u64, self.k as u64]
    }
}

// A verdict.
impl Numbered for () {
    ghost numbers = { verdict_numbers };

    fn numbers(&self) -> [u64; 3] {
        [0, 0, 0]
    }
}

impl Numbered for Hour {
    ghost numbers = { λ hour. hour_numbers (hour_said hour) };

    fn numbers(&self) -> [u64; 3] {
        match self {
            Hour::Found(_) => [0, 0, 0],
            Hour::None => [1, 0, 0],
            Hour::Unfinished { .. } => [2, 0, 0],
        }
    }
}

// The length of a text.
impl Numbered for usize {
    ghost numbers = { length_numbers };

    fn numbers(&self) -> [u64; 3] {
        [*self as u64, 0, 0]
    }
}

impl Numbered for Reply {
    ghost numbers = { λ reply. reply_numbers (reply_said reply) };

    fn numbers(&self) -> [u64; 3] {
        match self {
            Reply::Model => [0, 0, 0],
            Reply::None => [1, 0, 0],
        }
    }
}

fn written<T: Numbered + Copy>(answer: Result<T, Refusal>) -> [u64; 4]
    ensures { result ≡ answer_written T.numbers (answered (λ a. a) answer) }
{
    match answer {
        Ok(value) => {
            let [first, second, third] = value.numbers();
            [0, first, second, third]
        }
        Err(r) => [number_of(r), detail_of(r), 0, 0],
    }
}

// The hours of an answer; those that were there where it has none.
fn hours_written(hour: Result<Hour, Refusal>, hours: [i32; 3]) -> [i32; 3]
    ensures { result ≡ hours_written (said_hour hour) hours }
{
    match hour {
        Ok(Hour::Found(v)) => [v, v, v],
        Ok(
            Hour::Unfinished {
                low,
                high,
                question,
            },
        ) => [low, high, question],
        Ok(Hour::None) | Err(_) => hours,
    }
}

pub fn basmuthar_size(bytes: &[u8], answer: &mut [u64; 4])
    ensures { SizeLeaves bytes.now answer.new }
{
    *answer = written(size(bytes));
}

pub fn basmuthar_compile(bytes: &[u8], list: &mut [i32], answer: &mut [u64; 4])
    ensures { CompileLeaves bytes.now list.old answer.new list.new }
{
    *answer = written(compile(bytes, list));
}

pub fn basmuthar_decode(
    bytes: &[u8],
    model: &[u8],
    values: &mut [i32],
    booleans: &mut [u8],
    answer: &mut [u64; 4],
)
    ensures { DecodeLeaves bytes.now model.now values.old booleans.old answer.new values.new booleans.new }
{
    *answer = written(decode(bytes, model, values, booleans));
}

pub fn basmuthar_judge(bytes: &[u8], values: &[i32], booleans: &[u8], answer: &mut [u64; 4])
    ensures { JudgeLeaves bytes.now values.now booleans.now answer.new }
{
    *answer = written(judge(bytes, values, booleans));
}

pub fn basmuthar_image(
    bytes: &[u8],
    values: &[i32],
    booleans: &[u8],
    model: &mut [u8],
    answer: &mut [u64; 4],
)
    ensures { ImageLeaves bytes.now values.now booleans.now model.old answer.new model.new }
{
    *answer = written(image(bytes, values, booleans, model));
}

pub fn basmuthar_closing(
    bytes: &[u8],
    variable: usize,
    replies: &[u8],
    hours: &mut [i32; 3],
    answer: &mut [u64; 4],
)
    ensures { ClosingLeaves bytes.now variable replies.now hours.old answer.new hours.new }
{
    let hour = closing(bytes, variable, replies);
    *answer = written(hour);
    *hours = hours_written(hour, *hours);
}

pub fn basmuthar_write_text(bytes: &[u8], text: &mut [u8], answer: &mut [u64; 4])
    ensures { WriteTextLeaves bytes.now text.old answer.new text.new }
{
    *answer = written(write_text(bytes, text));
}

pub fn basmuthar_read_text(text: &[u8], list: &mut [i32], answer: &mut [u64; 4])
    ensures { ReadTextLeaves text.now list.old answer.new list.new }
{
    *answer = written(read_text(text, list));
}

pub fn basmuthar_read_reply(n: u32, text: &[u8], model: &mut [u8], answer: &mut [u64; 4])
    ensures { ReadReplyLeaves text.now n model.old answer.new model.new }
{
    *answer = written(read_reply(n, text, model));
}

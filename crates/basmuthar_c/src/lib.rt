// The functions that C and other languages call, under the names of include/basmuthar.h, which says what a caller owes and is given.
// Each is its namesake of crate basmuthar, with the same contract.
#![tactic(auto)]

ghost use Rattle.basmuthar.specs.Outcome.{ClosingLeaves, CompileLeaves, DecodeLeaves, ImageLeaves, JudgeLeaves, ReadReplyLeaves, ReadTextLeaves, SizeLeaves, WriteTextLeaves};

#[unsafe(no_mangle)]
pub extern "C" fn basmuthar_size(bytes: &[u8], answer: &mut [u64; 4])
    ensures { SizeLeaves bytes.now answer.new }
{
    basmuthar::basmuthar_size(bytes, answer);
}

#[unsafe(no_mangle)]
pub extern "C" fn basmuthar_compile(bytes: &[u8], list: &mut [i32], answer: &mut [u64; 4])
    ensures { CompileLeaves bytes.now list.old answer.new list.new }
{
    basmuthar::basmuthar_compile(bytes, list, answer);
}

#[unsafe(no_mangle)]
pub extern "C" fn basmuthar_decode(
    bytes: &[u8],
    model: &[u8],
    values: &mut [i32],
    booleans: &mut [u8],
    answer: &mut [u64; 4],
)
    ensures { DecodeLeaves bytes.now model.now values.old booleans.old answer.new values.new booleans.new }
{
    basmuthar::basmuthar_decode(bytes, model, values, booleans, answer);
}

#[unsafe(no_mangle)]
pub extern "C" fn basmuthar_judge(
    bytes: &[u8],
    values: &[i32],
    booleans: &[u8],
    answer: &mut [u64; 4],
)
    ensures { JudgeLeaves bytes.now values.now booleans.now answer.new }
{
    basmuthar::basmuthar_judge(bytes, values, booleans, answer);
}

#[unsafe(no_mangle)]
pub extern "C" fn basmuthar_image(
    bytes: &[u8],
    values: &[i32],
    booleans: &[u8],
    model: &mut [u8],
    answer: &mut [u64; 4],
)
    ensures { ImageLeaves bytes.now values.now booleans.now model.old answer.new model.new }
{
    basmuthar::basmuthar_image(bytes, values, booleans, model, answer);
}

#[unsafe(no_mangle)]
pub extern "C" fn basmuthar_closing(
    bytes: &[u8],
    variable: usize,
    replies: &[u8],
    hours: &mut [i32; 3],
    answer: &mut [u64; 4],
)
    ensures { ClosingLeaves bytes.now variable replies.now hours.old answer.new hours.new }
{
    basmuthar::basmuthar_closing(bytes, variable, replies, hours, answer);
}

#[unsafe(no_mangle)]
pub extern "C" fn basmuthar_write_text(bytes: &[u8], text: &mut [u8], answer: &mut [u64; 4])
    ensures { WriteTextLeaves bytes.now text.old answer.new text.new }
{
    basmuthar::basmuthar_write_text(bytes, text, answer);
}

#[unsafe(no_mangle)]
pub extern "C" fn basmuthar_read_text(text: &[u8], list: &mut [i32], answer: &mut [u64; 4])
    ensures { ReadTextLeaves text.now list.old answer.new list.new }
{
    basmuthar::basmuthar_read_text(text, list, answer);
}

#[unsafe(no_mangle)]
pub extern "C" fn basmuthar_read_reply(n: u32, text: &[u8], model: &mut [u8], answer: &mut [u64; 4])
    ensures { ReadReplyLeaves text.now n model.old answer.new model.new }
{
    basmuthar::basmuthar_read_reply(n, text, model, answer);
}

// Big-endian numbers of 1 to 4 bytes at a place of a slice: unsigned, and as two's complement.
#![tactic(auto)]

ghost use Rattle.std.specs.Prelude.{◌≡◌, ◌+◌, ◌≤◌, ◌<◌, ◌^◌, length};
ghost use Rattle.definitions.specs.Reading.{big, twos, unsigned, signed};
ghost use Rattle.fields.specs.Said.{said_field};

use definitions::Got;

// The number in `width` bytes that are there.
pub fn unchecked(bytes: &[u8], at: usize, width: usize) -> u32
    requires { (width ≤ 4) × (at + width ≤ length bytes.now) }
    ensures { result ≡ big bytes.now at width }
{
    let mut value: u32 = 0;
    for byte in &bytes[at..at + width] {
        value = 256 * value + *byte as u32;
    }
    value
}

// The same, with the place after it, or that its bytes are not all there.
#[tactic(auto, using(crate::proofs::Laws::unsigned_there, crate::proofs::Laws::unsigned_missing))]
pub fn unsigned_at(bytes: &[u8], at: usize, width: usize) -> Option<Got<u32>>
    requires { width ≤ 4 }
    ensures { said_field at result ≡ unsigned width bytes.now at }
{
    if bytes.len() < at || bytes.len() - at < width {
        return None;
    }
    Some(Got {
        value: unchecked(bytes, at, width),
        next: at + width,
    })
}

// How many numbers `width` bytes can give.
fn power(width: usize) -> u64
    requires { width ≤ 4 }
    ensures { result ≡ 256 ^ width }
{
    256u64.pow(width as u32)
}

fn twos_complement(value: u32, width: usize) -> i32
    requires { (width ≤ 4) × (value < 256 ^ width) }
    ensures { result ≡ twos width value }
{
    let numbers = power(width);
    if 2 * (value as u64) < numbers {
        return value as i32;
    }
    (value as i64 - numbers as i64) as i32
}

// The number in `width` bytes that are there, as two's complement.
pub fn unchecked_signed(bytes: &[u8], at: usize, width: usize) -> i32
    requires { (width ≤ 4) × (at + width ≤ length bytes.now) }
    ensures { result ≡ twos width (big bytes.now at width) }
{
    twos_complement(unchecked(bytes, at, width), width)
}

pub fn signed_at(bytes: &[u8], at: usize, width: usize) -> Option<Got<i32>>
    requires { width ≤ 4 }
    ensures { said_field at result ≡ signed width bytes.now at }
{
    let Got { value, next } = unsigned_at(bytes, at, width)?;
    Some(Got {
        value: twos_complement(value, width),
        next,
    })
}

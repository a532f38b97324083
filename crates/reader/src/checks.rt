// Fields whose value has a range. `why` is what a value outside it is refused for.
ghost use Rattle.std.specs.Prelude.{◌≡◌, ◌≤◌};
ghost use Rattle.reader.specs.Said.{said_got};
ghost use Rattle.reader.specs.Parts.{number_from, whole_from};
ghost use Rattle.reader.specs.Ranges.{ranged};

use super::{Fault, Why};
use definitions::Got;
use fields::{signed_at, unsigned_at};

// A field that was read: its missing bytes (8) before its value.
fn within<T: PartialOrd + Copy>(
    read: Option<Got<T>>,
    at: usize,
    least: T,
    most: T,
    why: Why,
) -> Result<Got<T>, Fault>
    ensures { result ≡ ranged T.partial_cmp least most why at read }
{
    let Some(got) = read else {
        return Err(Fault {
            why: Why::End,
            place: at,
        });
    };
    if got.value < least || most < got.value {
        return Err(Fault { why, place: at });
    }
    Ok(got)
}

// An unsigned field.
pub fn number_at(
    bytes: &[u8],
    at: usize,
    width: usize,
    least: u32,
    most: u32,
    why: Why,
) -> Result<Got<u32>, Fault>
    requires { width ≤ 4 }
    ensures { said_got result ≡ number_from why least most width bytes.now at }
{
    within(unsigned_at(bytes, at, width), at, least, most, why)
}

// A signed field.
pub fn whole_at(
    bytes: &[u8],
    at: usize,
    width: usize,
    least: i32,
    most: i32,
    why: Why,
) -> Result<Got<i32>, Fault>
    requires { width ≤ 4 }
    ensures { said_got result ≡ whole_from why least most width bytes.now at }
{
    within(signed_at(bytes, at, width), at, least, most, why)
}

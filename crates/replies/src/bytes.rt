// Tests of a byte, and what a digit is worth.
ghost use Rattle.std.specs.Prelude.{◌≡◌, ◌-◌, ◌≤◌, ◌&&◌};
ghost use Rattle.definitions.specs.Tools.{ltb};
ghost use Rattle.definitions.specs.Texts.{blank};
ghost use Rattle.definitions.specs.TextReading.{digit};

pub fn is_blank(b: u8) -> bool
    ensures { result ≡ blank b }
{
    matches!(b, b' ' | b'\n')
}

pub fn is_digit(b: u8) -> bool
    ensures { result ≡ digit b }
{
    b.is_ascii_digit()
}

// What a digit is worth; of any other byte it says nothing of use.
pub fn worth(b: u8) -> u32
    ensures { (result ≡ b - 48) × (result ≤ 207) }
{
    u32::from(b.saturating_sub(b'0'))
}

// A count goes on: no digit stands after a 0.
pub fn is_more(value: u32, b: u8) -> bool
    ensures { result ≡ (ltb 0 value && digit b) }
{
    0 < value && is_digit(b)
}

// A number that is being read.
ghost use Rattle.std.specs.Prelude.{◌≡◌, ◌<◌};
ghost use Rattle.definitions.specs.TextReading.{begun, whole, further, grown, number_read};
ghost use Rattle.replies.specs.Said.{number_said, said_grown};

use super::bytes::{is_digit, worth};
use super::{Bad, Number};

impl Number {
    // Its first byte: with N = 0 a minus begins no number.
    pub fn begun(n: u32, start: usize, b: u8) -> Result<Number, Bad>
        ensures { said_grown result ≡ begun n start b }
    {
        if b == b'-' {
            if n < 1 {
                return Err(Bad { place: start });
            }
            return Ok(Number {
                start,
                minus: true,
                size: 0,
            });
        }
        if !is_digit(b) || n < worth(b) {
            return Err(Bad { place: start });
        }
        Ok(Number {
            start,
            minus: false,
            size: worth(b),
        })
    }

    // It goes on with this byte: none after a 0, no 0 after the minus.
    pub fn is_further(self, b: u8) -> bool
        ensures { result ≡ further (number_said self) b }
    {
        is_digit(b) && (0 < self.size || self.minus && b'0' < b)
    }

    // It may end here: a minus alone is no number.
    pub fn is_whole(self) -> bool
        ensures { result ≡ whole (number_said self) }
    {
        0 < self.size || !self.minus
    }

    // With one digit more, at this place.
    pub fn grown(self, n: u32, at: usize, b: u8) -> Result<Number, Bad>
        ensures { said_grown result ≡ grown n (number_said self) at b }
    {
        if !self.is_further(b) {
            return Err(Bad { place: at });
        }
        let more = 10 * u64::from(self.size) + u64::from(worth(b));
        if u64::from(n) < more {
            return Err(Bad { place: self.start });
        }
        Ok(Number {
            size: more as u32,
            ..self
        })
    }

    pub fn signed(self) -> i32
        requires { self.size < 2147483648 }
        ensures { result ≡ number_read (number_said self) }
    {
        if self.minus {
            return -(self.size as i32);
        }
        self.size as i32
    }
}

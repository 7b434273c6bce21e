//! Printing numbers.

ghost use Rattle.std.specs.Prelude.{◌≡◌, ◌≤◌, length, IsAscii};

use itoa::{Buffer, Integer};

/// The number in decimal, in the buffer: copy it before the buffer is printed to again.
pub fn print<I: Integer>(number: I, buffer: &mut Buffer) -> &str
    ensures text { result.now ≡ I.text number }
    ensures short { length result.now ≤ 40 }
    ensures ascii { IsAscii result.now }
{
    buffer.format(number)
}

//! Signs and digits.

ghost use Rattle.std.specs.Prelude.{◌≡◌, ◌≤◌, fold, if◌then◌else◌, Some, None, min};
ghost use Rattle.std.specs.List.{list_all};
ghost use Rattle.std.specs.Char.{is_ascii_digit};
ghost use Rattle.design_model.specs.Units.{unsigned, is_minus, one_more};

/// Where the number that digits spell is capped: above the limits of both kinds of numbers.
pub(crate) const CAP: u64 = 1000000000000000001;

/// Whether the text begins with a minus, and the text without its sign.
#[inline(always)]
pub(crate) fn split_sign(text: &[u8]) -> (bool, &[u8])
    ensures minus { result.0 ≡ is_minus text.now }
    ensures body { result.1.now ≡ unsigned text.now }
{
    match text {
        [b'+', body @ ..] => (false, body),
        [b'-', body @ ..] => (true, body),
        _ => (false, text),
    }
}

/// The number that digits spell behind digits that spell `front`, capped.
#[inline(always)]
pub(crate) fn spelled(front: u64, text: &[u8]) -> Option<u64>
    requires { front ≤ CAP }
    ensures { result ≡ (if list_all is_ascii_digit text.now
        then Some (min (fold one_more front text.now) CAP) else None) }
{
    let mut value = front;
    for byte in text {
        if !byte.is_ascii_digit() {
            return None;
        }
        value = (10 * value + (*byte - b'0') as u64).min(CAP);
    }
    Some(value)
}

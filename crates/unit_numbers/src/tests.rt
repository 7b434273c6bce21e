use crate::{microns, print, whole};
use design_model::number::NumFault::{self, Form, Range};
use itoa::Buffer;

#[test]
fn whole_numbers(rt: HostRuntime) {
    let rows: [(&[u8], Result<i32, NumFault>); 13] = [
        (b"+7", Ok(7)),
        (b"007", Ok(7)),
        (b"-0", Ok(0)),
        (b"2147483647", Ok(2147483647)),
        (b"-2147483647", Ok(-2147483647)),
        (b"2147483648", Err(Range)),
        (b"-2147483648", Err(Range)),
        (b"99999999999999999999999999999999", Err(Range)),
        (b"-", Err(Form)),
        (b"", Err(Form)),
        (b"+-1", Err(Form)),
        (b"1.0", Err(Form)),
        (b"*", Err(Form)),
    ];
    for (text, want) in rows {
        assert_eq!(rt; whole(text), want);
    }
}

/// At 1000 units per micron: the units, and whether nothing was rounded.
fn units(text: &[u8]) -> Result<(i64, bool), NumFault> {
    let units = microns(text)?.units(1000);
    Ok((units.value, units.exact))
}

#[test]
fn distances(rt: HostRuntime) {
    let rows: [(&[u8], Result<(i64, bool), NumFault>); 17] = [
        (b"0.0005", Ok((1, false))),
        (b"-0.0005", Ok((-1, false))),
        (b"0.00049", Ok((0, false))),
        (b".46", Ok((460, true))),
        (b"5.", Ok((5000, true))),
        (b"+1.5", Ok((1500, true))),
        (b"-1.25", Ok((-1250, true))),
        (b"1000000", Ok((1000000000, true))),
        (b"-1000000.000000000000", Ok((-1000000000, true))),
        (b"1000000.001", Err(Range)),
        (b"12345678901234567890.5", Err(Range)),
        (b"0.123456789012", Ok((123, false))),
        (b"0.1234567890123", Err(Form)),
        (b".", Err(Form)),
        (b"1e3", Err(Form)),
        (b"1.2.3", Err(Form)),
        (b"99999999x", Err(Form)),
    ];
    for (text, want) in rows {
        assert_eq!(rt; units(text), want);
    }
}

#[test]
fn printed_numbers(rt: HostRuntime) {
    let mut buffer = Buffer::new();
    assert_eq!(rt; print(-2147483647i64, &mut buffer), "-2147483647");
    assert_eq!(rt; print(7u32, &mut buffer), "7");
}

//! Writing all, within a number of interruptions.

ghost use Rattle.std.specs.Prelude.{◌≡◌, ◌+◌, ◌^◌, ◌<◌, ◌≤◌, OnErr, OnOk};
ghost use Rattle.std.specs.Io.KnownBytes.{Appends};
ghost use Rattle.counted_devices.specs.Counting.{HasFailed};
ghost use Rattle.counted_devices.specs.Known.{WritesPart};

use crate::counted::{CountedWrite, Failures};
use std::io;
use std::io::Write;

/// A write failed.
#[derive(Clone, Copy, Debug, PartialEq, Eq)]
pub struct WriteFault;

/// How often a writer may answer Interrupted in one call. The next time, the write has failed.
pub const MAX_INTERRUPTIONS: u32 = 33554431;

/// Writes all the bytes. An answer of Interrupted takes one from `patience`; at none left, the write has failed.
pub fn write_whole<W: CountedWrite>(
    out: &mut W,
    bytes: &[u8],
    patience: &mut u32,
) -> Result<(), WriteFault>
    requires { W.failed out.old + patience.old < 2 ^ 63 + 2 ^ 32 }
    ensures ok { OnOk result (Appends (W.contents out.old) (W.contents out.new) bytes.now) }
    ensures err { OnErr result (WritesPart (W.contents out.old) (W.contents out.new) bytes.now) }
    ensures failed { OnErr result (HasFailed (W.failed_hard out.old) (W.failed_hard out.new) (W.failed out.old) (W.failed out.new) patience.old) }
    ensures hard_ok { OnOk result (W.failed_hard out.new ≡ W.failed_hard out.old) }
    ensures rises { W.failed out.old ≤ W.failed out.new }
    ensures spent { OnErr result (W.failed out.new + patience.new ≡ W.failed out.old + patience.old + 1) }
    ensures spent_ok { OnOk result (W.failed out.new + patience.new ≡ W.failed out.old + patience.old) }
{
    let mut rest = bytes;
    while !rest.is_empty() {
        match out.write_counted(rest) {
            Ok(0) => return Err(WriteFault),
            Ok(n) => rest = &rest[n..],
            Err(e) => {
                if e.kind() != io::ErrorKind::Interrupted || *patience == 0 {
                    return Err(WriteFault);
                }
                *patience -= 1;
            }
        }
    }
    Ok(())
}

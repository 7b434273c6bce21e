//! Reading to the end, within a number of turns and of bytes.

ghost use Rattle.std.specs.Prelude.{◌≡◌, ◌≢◌, ◌+◌, ◌^◌, ◌<◌, ◌≤◌, IfErr, IfOk, IfSome, IsErrOf, length};
ghost use Rattle.counted_devices.specs.Known.{Reads, ReadsUpTo};
ghost use Rattle.counted_devices.specs.Turns.{Brings, IsTurnFault, after_turn, hard_after};

use crate::counted::{CountedRead, Failures};
use std::alloc::{AllocError, Allocator};
use std::io;
use std::io::Read;

/// Why an input is not read.
#[derive(Clone, Copy, Debug, PartialEq, Eq)]
pub enum InputError {
    /// Memory was refused.
    Memory,
    /// The reader failed, otherwise than by Interrupted.
    Read,
    /// The bytes are more than the limit.
    TooLong,
    /// The turns brought neither the end nor another error.
    Endless,
}

/// What a call of `read` brought.
#[derive(Clone, Copy)]
enum Turn {
    End,
    Bytes,
    Interrupted,
}

/// A call of `read` into the buffer, whose bytes are put after those that were read before.
fn read_turn<A: Allocator, R: CountedRead>(
    reader: &mut R,
    buf: &mut [u8],
    all: &mut Vec<u8, A>,
) -> Result<Turn, InputError>
    requires { 0 < length buf.old }
    ensures brings { IfOk result (λ turn. Brings turn (R.remaining reader.old) (R.remaining reader.new) all.old.items all.new.items) }
    ensures buf { length buf.new ≡ length buf.old }
    ensures count { R.failed reader.new ≡ after_turn result (R.failed reader.old) }
    ensures hard { R.failed_hard reader.new ≡ hard_after result (R.failed_hard reader.old) }
    ensures fault { IfErr result (λ e. IsTurnFault e) }
{
    match reader.read_counted(buf) {
        Ok(0) => Ok(Turn::End),
        Ok(n) => match all.extend_from_slice(&buf[..n]) {
            Ok(()) => Ok(Turn::Bytes),
            Err(_) => Err(InputError::Memory),
        },
        Err(e) => {
            if e.kind() != io::ErrorKind::Interrupted {
                return Err(InputError::Read);
            }
            Ok(Turn::Interrupted)
        }
    }
}

/// Reads to the end, in at most `turns` calls of `read`. One that answers Interrupted is a turn, and is tried again.
pub fn read_whole<A: Allocator, R: CountedRead>(
    alloc: A,
    reader: &mut R,
    limit: usize,
    turns: u32,
) -> Result<Vec<u8, A>, InputError>
    requires few { R.failed reader.old < 2 ^ 63 }
    requires limit { limit < 2 ^ 62 }
    ensures ok { IfOk result (λ v. Reads (R.remaining reader.old) (R.remaining reader.new) v.items) }
    ensures small { IfOk result (λ v. length v.items ≤ limit) }
    ensures failed { IsErrOf result InputError.Read → R.failed reader.old < R.failed reader.new }
    ensures hard { R.failed_hard reader.new ≡ hard_after result (R.failed_hard reader.old) }
    ensures long { IsErrOf result InputError.TooLong → IfSome (R.remaining reader.old) (λ xs. limit < length xs) }
    ensures endless { IsErrOf result InputError.Endless → turns + R.failed reader.old ≤ limit + R.failed reader.new }
    ensures endless_known { IsErrOf result InputError.Endless → IfSome (R.remaining reader.old) (λ xs. turns + R.failed reader.old ≤ length xs + R.failed reader.new) }
    ensures few_more { R.failed reader.new ≤ R.failed reader.old + turns }
{
    let mut all = Vec::new(alloc);
    let mut buf = [0u8; 4096];
    for _ in 0..turns {
        match read_turn(reader, &mut buf, &mut all)? {
            Turn::End => return Ok(all),
            Turn::Bytes => {
                if all.len() > limit {
                    return Err(InputError::TooLong);
                }
            }
            Turn::Interrupted => {}
        }
    }
    Err(InputError::Endless)
}

/// Reads to the end, or until at least `enough` bytes are read, in at most `turns` calls of `read`.
pub fn read_up_to<A: Allocator, R: CountedRead>(
    alloc: A,
    reader: &mut R,
    enough: usize,
    turns: u32,
) -> Result<Vec<u8, A>, InputError>
    requires few { R.failed reader.old < 2 ^ 63 }
    ensures ok { IfOk result (λ v. ReadsUpTo enough (R.remaining reader.old) (R.remaining reader.new) v.items) }
    ensures never_long { IfErr result (λ e. e ≢ InputError.TooLong) }
    ensures failed { IsErrOf result InputError.Read → R.failed reader.old < R.failed reader.new }
    ensures hard { R.failed_hard reader.new ≡ hard_after result (R.failed_hard reader.old) }
    ensures endless { IsErrOf result InputError.Endless → turns + R.failed reader.old ≤ enough + R.failed reader.new }
    ensures endless_known { IsErrOf result InputError.Endless → IfSome (R.remaining reader.old) (λ xs. turns + R.failed reader.old ≤ length xs + R.failed reader.new) }
    ensures few_more { R.failed reader.new ≤ R.failed reader.old + turns }
{
    let mut all = Vec::new(alloc);
    let mut buf = [0u8; 4096];
    for _ in 0..turns {
        match read_turn(reader, &mut buf, &mut all)? {
            Turn::End => return Ok(all),
            Turn::Bytes => {
                if all.len() >= enough {
                    return Ok(all);
                }
            }
            Turn::Interrupted => {}
        }
    }
    Err(InputError::Endless)
}

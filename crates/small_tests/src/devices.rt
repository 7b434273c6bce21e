//! Devices that interrupt: what is read, what is written, and what is counted.

use counted_devices::counted::{Counted, Failures};
use counted_devices::input::{InputError, read_up_to, read_whole};
use counted_devices::output::{WriteFault, write_whole};
use std::io;
use std::io::{Read, Write};
use std::test::Fail;

/// Reads and writes one byte at each second turn, and answers Interrupted at the others.
#[derive(Drop)]
struct Halting<T> {
    inner: T,
    halts: bool,
}

impl<T> Halting<T> {
    fn new(inner: T) -> Halting<T> {
        Halting { inner, halts: true }
    }

    fn turn(&mut self) -> io::Result<()> {
        let halts = self.halts;
        self.halts = !halts;
        if halts {
            return Err(io::ErrorKind::Interrupted.into());
        }
        Ok(())
    }
}

impl<T: Read> Read for Halting<T> {
    fn read(&mut self, buf: &mut [u8]) -> io::Result<usize> {
        self.turn()?;
        if buf.is_empty() {
            return Ok(0);
        }
        let mut one = [0u8];
        let count = self.inner.read(&mut one)?;
        buf[0] = one[0];
        Ok(count)
    }
}

impl<T: Write> Write for Halting<T> {
    fn write(&mut self, buf: &[u8]) -> io::Result<usize> {
        self.turn()?;
        if buf.is_empty() {
            return Ok(0);
        }
        self.inner.write(&buf[..1])
    }

    fn flush(&mut self) -> io::Result<()> {
        self.inner.flush()
    }
}

#[test]
fn whole_inputs_within_their_turns(rt: HostRuntime) -> Result<(), Fail> {
    let alloc = rt.alloc();
    let bytes: &[u8] = b"abc";
    // a byte takes two turns, and so does the end
    for (limit, turns, error) in [
        (3, 8, None),
        (3, 7, Some(InputError::Endless)),
        (2, 8, Some(InputError::TooLong)),
    ] {
        let mut reader = Counted::new(Halting::new(bytes));
        match read_whole(alloc, &mut reader, limit, turns) {
            Ok(all) => {
                assert!(rt; error.is_none());
                assert_eq!(rt; all.as_slice(), bytes);
                assert_eq!(rt; reader.failures(), 4);
                assert_eq!(rt; reader.hard_failures(), 0);
            }
            Err(fault) => assert_eq!(rt; Some(fault), error),
        }
    }
    let mut reader = Counted::new(bytes);
    let all = read_whole(alloc, &mut reader, 3, 2)?;
    assert_eq!(rt; all.as_slice(), bytes);
    assert_eq!(rt; reader.failures(), 0);
    Ok(())
}

#[test]
fn inputs_up_to_enough(rt: HostRuntime) -> Result<(), Fail> {
    let bytes: &[u8] = b"abc";
    for (enough, length) in [(1, 1), (2, 2), (3, 3), (4, 3)] {
        let mut reader = Counted::new(Halting::new(bytes));
        let all = read_up_to(rt.alloc(), &mut reader, enough, 8)?;
        assert_eq!(rt; Some(all.as_slice()), bytes.get(..length), "{enough}");
    }
    let mut reader = Counted::new(Halting::new(bytes));
    let all = read_up_to(rt.alloc(), &mut reader, 4, 7);
    assert!(rt; matches!(&all, Err(InputError::Endless)));
    Ok(())
}

#[test]
fn whole_outputs_within_patience(rt: HostRuntime) {
    let alloc = rt.alloc();
    let mut patience = 3;
    let mut out = Counted::new(Halting::new(Vec::new(alloc)));
    assert_eq!(rt; write_whole(&mut out, b"abc", &mut patience), Ok(()));
    assert_eq!(rt; patience, 0);
    assert_eq!(rt; out.failures(), 3);
    assert_eq!(rt; write_whole(&mut out, b"d", &mut patience), Err(WriteFault));
    assert_eq!(rt; out.into_inner().inner.as_slice(), b"abc".as_slice());
}

/// A writer that can't be flushed.
#[derive(Drop)]
struct Unflushed;

impl Write for Unflushed {
    fn write(&mut self, buf: &[u8]) -> io::Result<usize> {
        Ok(buf.len())
    }

    fn flush(&mut self) -> io::Result<()> {
        Err(io::ErrorKind::Other.into())
    }
}

#[test]
fn flushes_reach_the_device(rt: HostRuntime) {
    let mut out = Counted::new(Unflushed);
    assert!(rt; out.flush().is_err());
    assert_eq!(rt; out.failures(), 1);
    assert_eq!(rt; out.hard_failures(), 1);
}

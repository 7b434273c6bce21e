//! Writing the text of a design.

ghost use Rattle.std.specs.Prelude.{◌≡◌, ◌<◌, ◌≤◌, ◌+◌, ◌^◌, IfOk, OnErr, OnOk, length};
ghost use Rattle.std.specs.Io.KnownBytes.{Appends};
ghost use Rattle.counted_devices.specs.Counting.{HasFailed};
ghost use Rattle.counted_devices.specs.Known.{WritesPart};
ghost use Rattle.text_pieces.specs.Content.{text_of as text_in_pieces};
ghost use Rattle.design_text.specs.DesignTexts.{text_of};

use crate::text::DesignText;
use counted_devices::counted::{Counted, CountedWrite, Failures};
use counted_devices::output::WriteFault;
use std::alloc::{AllocError, Allocator};
use std::io::Write;
use text_pieces::text::TextPieces;

/// Pieces of a text, put together.
fn joined<A: Allocator + Copy>(alloc: A, pieces: &TextPieces<A>) -> Result<Vec<u8, A>, AllocError>
    ensures { IfOk result (λ v. v.items ≡ text_in_pieces pieces.now) }
{
    let Ok(bytes) = Vec::with_capacity(alloc, pieces.len()) else {
        return Err(AllocError);
    };
    let mut out = Counted::new(bytes);
    match pieces.write_to(&mut out) {
        Ok(()) => Ok(out.into_inner()),
        Err(_) => Err(AllocError),
    }
}

impl<A: Allocator + Copy> DesignText<A> {
    /// How many bytes the text has.
    pub fn len(&self) -> usize
        ensures { result ≡ length (text_of self.now) }
    {
        self.pieces.len()
    }

    /// The text, put together.
    pub fn text(&self, alloc: A) -> Result<Vec<u8, A>, AllocError>
        ensures { IfOk result (λ v. v.items ≡ text_of self.now) }
    {
        joined(alloc, &self.pieces)
    }

    /// The text, put together. The tables are given back before memory is taken for it.
    pub fn into_text(self, alloc: A) -> Result<Vec<u8, A>, AllocError>
        ensures { IfOk result (λ v. v.items ≡ text_of self) }
    {
        let pieces = self.into_pieces();
        joined(alloc, &pieces)
    }

    /// Writes the text.
    pub fn write_to<W: CountedWrite>(&self, out: &mut W) -> Result<(), WriteFault>
        requires { W.failed out.old < 2 ^ 63 }
        ensures ok { OnOk result (Appends (W.contents out.old) (W.contents out.new) (text_of self.now)) }
        ensures err { OnErr result (WritesPart (W.contents out.old) (W.contents out.new) (text_of self.now)) }
        ensures failed { OnErr result (HasFailed (W.failed_hard out.old) (W.failed_hard out.new) (W.failed out.old) (W.failed out.new) 33554431) }
        ensures few { W.failed out.new ≤ W.failed out.old + 33554432 }
    {
        self.pieces.write_to(out)
    }
}

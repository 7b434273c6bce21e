//! Reading a stretch of a text in pieces again.

ghost use Rattle.std.specs.Prelude.{◌≡◌, ◌≤◌, ◌++◌, IfOk, MatchOption, OnOk, Some, drop, length, slice_get, take};
ghost use Rattle.std.specs.List.{slice_range};
ghost use Rattle.design_model.specs.declared.mode.Mode.{Mode as ModeValue};
ghost use Rattle.rereading.specs.Segments.{mode_at};
ghost use Rattle.text_pieces.specs.Touched.{AreTouched};

use design_model::mode::Mode;
use rereading::pieces::NewPiece;
use rereading::segments::Segments;
use std::alloc::{AllocError, Allocator, Global};

/// New pieces that take the place of so many from a place of a chunk on, what is to stand behind the last piece, and how many
/// statements were read.
#[derive(Drop)]
pub(crate) struct Stretch<A: Allocator = Global> {
    pub(crate) chunk: usize,
    pub(crate) index: usize,
    pub(crate) out: usize,
    pub(crate) pieces: Vec<NewPiece<A>, A>,
    pub(crate) tail: Vec<u8, A>,
    pub(crate) reads: u64,
}

/// The bytes of the first segment and of as many more as have bytes up to an end, and how many these are.
pub(crate) fn touched<S: Segments, A: Allocator + Copy>(
    alloc: A,
    segments: &S,
    end: usize,
) -> Result<(Vec<u8, A>, usize), AllocError>
    ensures { IfOk result (λ x. AreTouched (S.listed segments.now) end x.0.items x.1) }
{
    let mut bytes = Vec::new(alloc);
    let mut count = 0;
    'segments: loop {
        if count > 0 && bytes.len() >= end {
            return Ok((bytes, count));
        }
        let Some(segment) = segments.segment(count) else {
            return Ok((bytes, count));
        };
        let Ok(()) = bytes.extend_from_slice(segment.bytes) else {
            return Err(AllocError);
        };
        count += 1;
    }
}

/// Bytes with others in the place of those between two positions.
pub(crate) fn spliced<A: Allocator + Copy>(
    alloc: A,
    bytes: &[u8],
    lo: usize,
    hi: usize,
    put: &[u8],
) -> Result<Vec<u8, A>, AllocError>
    requires lo { lo ≤ length bytes.now }
    requires hi { hi ≤ length bytes.now }
    ensures { IfOk result (λ v. v.items ≡ take lo bytes.now ++ (put.now ++ drop hi bytes.now)) }
{
    let Ok(mut made) = Vec::from_slice(alloc, &bytes[..lo]) else {
        return Err(AllocError);
    };
    if let Err(_) = made.extend_from_slice(put) {
        return Err(AllocError);
    }
    if let Err(_) = made.extend_from_slice(&bytes[hi..]) {
        return Err(AllocError);
    }
    Ok(made)
}

/// Appends the bytes between two positions of some.
pub(crate) fn append_part<A: Allocator + Copy>(
    out: &mut Vec<u8, A>,
    bytes: &[u8],
    lo: usize,
    hi: usize,
) -> Result<(), AllocError>
    requires order { lo ≤ hi }
    requires within { hi ≤ length bytes.now }
    ensures { OnOk result (out.new.items ≡ out.old.items ++ slice_range bytes.now lo hi) }
{
    if let Err(_) = out.extend_from_slice(&bytes[lo..hi]) {
        return Err(AllocError);
    }
    Ok(())
}

/// The mode in which the first of some segments stands.
pub(crate) fn first_mode<S: Segments>(segments: &S) -> Mode
    ensures { (mode : ModeValue) → mode_at (S.listed segments.now) 0 ≡ Some mode → result ≡ mode }
{
    let Some(segment) = segments.segment(0) else {
        return Mode::Top;
    };
    let Some(mode) = segment.mode else {
        return Mode::Top;
    };
    mode
}

/// What is to stand behind the last piece after rereading: what stood there, where an old statement goes on, or what was left.
pub(crate) fn tail_after<S: Segments, A: Allocator + Copy>(
    alloc: A,
    segments: &S,
    used: usize,
    rest: Vec<u8, A>,
    tail: &[u8],
) -> Result<Vec<u8, A>, AllocError>
    ensures { IfOk result (λ v. MatchOption (slice_get (S.listed segments.now) used) (v.items ≡ rest.items) (λ _. v.items ≡ tail.now)) }
{
    match segments.segment(used) {
        Some(_) => Vec::from_slice(alloc, tail),
        None => Ok(rest),
    }
}

//! Lists and sorted lines.

use design_model::diagnostic::{DiagKind, DiagLine, sort_lines};
use design_model::sequence::Sequence;
use std::test::Fail;

#[test]
fn sequences_grow_and_copy(rt: HostRuntime) -> Result<(), Fail> {
    let mut list = Sequence::new(rt.alloc());
    assert_eq!(rt; list.len(), 0);
    list.push(3u8)?;
    list.push(5)?;
    assert_eq!(rt; list.as_slice(), [3, 5].as_slice());
    assert_eq!(rt; list.into_vec().as_slice(), [3, 5].as_slice());
    let copy = Sequence::from_slice(rt.alloc(), b"ab")?;
    assert_eq!(rt; copy.as_slice(), b"ab".as_slice());
    Ok(())
}

#[test]
fn lines_in_the_order_of_their_bytes(rt: HostRuntime) -> Result<(), Fail> {
    let words: [&[u8]; 5] = [b"b", b"a\xff", b"a", b"B", b"a"];
    let sorted: [&[u8]; 5] = [b"B", b"a", b"a", b"a\xff", b"b"];
    let mut lines = Vec::new(rt.alloc());
    for word in words {
        lines.push(DiagLine {
            kind: DiagKind::Overlap,
            text: Sequence::from_slice(rt.alloc(), word)?,
        })?;
    }
    sort_lines(&mut lines);
    assert_eq!(rt; lines.len(), sorted.len());
    for (line, word) in lines.iter().zip(sorted) {
        assert_eq!(rt; line.text.as_slice(), word);
    }
    Ok(())
}

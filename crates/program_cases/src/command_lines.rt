//! Command lines, and what clap says of those that are none.

use clap::error::ErrorKind;
use defedit_program::command_line::read_request;
use std::alloc::{AllocError, Global};
use std::test::Fail;

const WORDS: [&str; 9] = [
    "defedit", "--def", "a.def", "--script", "b.txt", "--out", "c.def", "d.lef", "e.lef",
];

#[test]
fn a_request_with_its_lefs_in_order(rt: HostRuntime) -> Result<(), Fail> {
    let turned = [
        "defedit",
        "d.lef",
        "--out=c.def",
        "e.lef",
        "--script",
        "b.txt",
        "--def",
        "a.def",
    ];
    let orders: [&[&str]; 2] = [&WORDS, &turned];
    for words in orders {
        let request = read_request(rt.alloc(), words)?;
        assert_eq!(rt; request.def, "a.def");
        assert_eq!(rt; request.script, "b.txt");
        assert_eq!(rt; request.out, "c.def");
        assert_eq!(rt; request.lefs.as_slice(), ["d.lef", "e.lef"].as_slice());
    }
    Ok(())
}

/// The kind and the text of the error that these words give.
fn error_of(alloc: Global, words: &[&str]) -> Result<Option<(ErrorKind, String)>, AllocError> {
    match read_request(alloc, words) {
        Ok(_) => Ok(None),
        Err(error) => Ok(Some((error.kind(), format!(in alloc; "{error}")?))),
    }
}

#[test]
fn what_is_no_request(rt: HostRuntime) -> Result<(), Fail> {
    let missing = ErrorKind::MissingRequiredArgument;
    let rows: [(&[&str], ErrorKind); 8] = [
        (&WORDS[..1], missing),
        (&WORDS[..5], missing),
        (&WORDS[..7], missing),
        (&["defedit", "--script", "b", "--out", "c", "d"], missing),
        (&["defedit", "--def", "a", "--out", "c", "d"], missing),
        (&["defedit", "--def", "a", "--script", "b", "d"], missing),
        (&["defedit", "--other", "a"], ErrorKind::UnknownArgument),
        (
            &[
                "defedit", "--def", "a", "--def", "b", "--script", "b", "--out", "c", "d",
            ],
            ErrorKind::ArgumentConflict,
        ),
    ];
    for (words, kind) in rows {
        let (given, text) = error_of(rt.alloc(), words)?.ok_or("it was read")?;
        assert_eq!(rt; given, kind, "{words:?}");
        assert!(rt; text.starts_with("error: "), "{text}");
    }
    Ok(())
}

#[test]
fn help_names_the_options(rt: HostRuntime) -> Result<(), Fail> {
    let (kind, text) = error_of(rt.alloc(), &["defedit", "--help"])?.ok_or("it was read")?;
    assert_eq!(rt; kind, ErrorKind::DisplayHelp);
    for name in ["--def", "--script", "--out", "LEF", "--help"] {
        assert!(rt; text.contains(name), "{name} in {text}");
    }
    Ok(())
}

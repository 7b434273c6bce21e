//! Statuses, and the lines on standard error.

use defedit_program::outcome::{Outcome, Stop};
use design_model::fault::{Fault, FaultCode};
use edit_script::run::RunFault;
use std::test::Fail;

#[test]
fn statuses_of_outcomes(rt: HostRuntime) {
    for (outcome, status) in [
        (Outcome::Done, 0),
        (Outcome::Refused, 1),
        (Outcome::Usage, 2),
        (Outcome::Fault, 3),
        (Outcome::Device, 4),
        (Outcome::Memory, 5),
    ] {
        assert_eq!(rt; outcome.status(), status, "{outcome:?}");
    }
}

/// A fault of a text.
fn fault(code: FaultCode, pos: usize) -> Fault {
    Fault { code, pos }
}

#[test]
fn lines_of_stops(rt: HostRuntime) -> Result<(), Fail> {
    let alloc = rt.alloc();
    let form = fault(FaultCode::NoForm, 17);
    let end = fault(FaultCode::Unfinished, 0);
    for (stop, line, status) in [
        (Stop::NoText, "an argument is no text", 2),
        (Stop::NoRandom, "no random numbers", 4),
        (Stop::CannotRead("a b.def"), "cannot read a b.def", 4),
        (Stop::CannotWrite("out.def"), "cannot write out.def", 4),
        (Stop::WriteFailed, "write failed", 4),
        (Stop::Memory, "out of memory", 5),
        (
            Stop::Run(RunFault::Lef {
                file: 1,
                fault: form,
            }),
            "LEF 1: F4 at 17",
            3,
        ),
        (Stop::Run(RunFault::Def(end)), "DEF: F5 at 0", 3),
        (Stop::Run(RunFault::Memory), "out of memory", 5),
        (Stop::Run(RunFault::Read), "read failed", 4),
        (Stop::Run(RunFault::Write), "write failed", 4),
        (Stop::Run(RunFault::TooLong), "script too long", 4),
        (Stop::Run(RunFault::Endless), "script does not end", 4),
    ] {
        let text = format!(in alloc; "{stop}")?;
        assert_eq!(rt; text.as_str(), line, "{stop:?}");
        assert_eq!(rt; stop.outcome().status(), status, "{stop:?}");
    }
    Ok(())
}

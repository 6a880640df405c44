//! The statuses that the program ends with, and its own messages.

ghost use Rattle.std.specs.Prelude.{◌≡◌, true, false};
ghost use Rattle.cm_arguments.specs.Action.{IsHelp, IsUsageError};

use cm_arguments::UsageFault;
use cm_lines::LineFault;
use cm_maintenance::{Status, tell_fault};
use cm_recover::FormatFault;
use cm_tool::Outcome;
use cm_verdict::OpenFault;
use std::fmt::Display;
use std::io;

/// The status of a script that was run: that of a failure comes before that of a refusal.
pub fn status_of(outcome: Outcome) -> Status
    ensures unsure { outcome.unsure ≡ true → result ≡ Status.Failed }
    ensures refused { outcome.unsure ≡ false → outcome.refused ≡ true → result ≡ Status.Refused }
    ensures done { outcome.unsure ≡ false → outcome.refused ≡ false → result ≡ Status.Done }
{
    if outcome.unsure {
        Status::Failed
    } else if outcome.refused {
        Status::Refused
    } else {
        Status::Done
    }
}

/// The status of words that request nothing that can be done.
pub fn status_of_usage(fault: &UsageFault) -> Status
    ensures help { IsHelp fault.now → result ≡ Status.Done }
    ensures wrong { IsUsageError fault.now → result ≡ Status.WrongWords }
    ensures memory { fault.now ≡ UsageFault.NoMemory → result ≡ Status.Failed }
{
    match fault {
        UsageFault::Help(_) => Status::Done,
        UsageFault::Words(_) => Status::WrongWords,
        UsageFault::NoMemory => Status::Failed,
    }
}

/// Writes one of the program's own messages to standard output, and returns the status: this one,
/// or that of a failure if the output fails.
pub fn say(rt: &(impl Print + Eprint), text: impl Display + Drop, status: Status) -> Status {
    match println!(rt; "{text}") {
        Ok(()) => status,
        Err(_) => fail(rt, LineFault::Output),
    }
}

/// Says why a file isn't made, as [`say`] does.
pub fn say_not_made(rt: &(impl Print + Eprint), fault: FormatFault) -> Status {
    let status = match fault {
        FormatFault::NotEmpty => Status::Refused,
        FormatFault::Device | FormatFault::NoMemory => Status::Failed,
    };
    say(rt, fault, status)
}

/// Says why a file isn't opened, as [`say`] does.
pub fn say_fault(rt: &(impl Print + Eprint + AllocGlobal), fault: OpenFault) -> Status {
    match tell_fault(rt.alloc(), &mut io::writer(rt), fault) {
        Ok(status) => status,
        Err(fault) => fail(rt, fault),
    }
}

/// Writes to standard error what failed, and returns the status.
pub fn fail(rt: &impl Eprint, why: impl Display + Drop) -> Status {
    let _ = eprintln!(rt; "cmcache: {why}");
    Status::Failed
}

//! What the program says of its own.

use cm_commands::Refusal;
use cm_maintenance::{Status, tell_fault};
use cm_verdict::OpenFault;
use std::alloc::{AllocError, Global};
use std::fmt::Display;
use std::io;

/// Writes a line to standard output, and gives the status: this one, or that of a failure if the
/// output fails.
pub fn say(
    rt: &(impl Print + Eprint + AllocGlobal),
    text: impl Display + Drop,
    status: Status,
) -> Status {
    match println!(rt; "{text}") {
        Ok(()) => status,
        Err(_) => fail(rt, "the output failed"),
    }
}

/// A text in which each byte of a control character is spelled by `%` and two digits: names of
/// files and of entries may hold what a terminal obeys.
fn shown(alloc: Global, text: &str) -> Result<String, AllocError> {
    let mut shown = String::new(alloc);
    for char in text.chars() {
        if char.is_control() {
            let mut bytes = [0u8; 4];
            for byte in char.encode_utf8(&mut bytes).as_bytes() {
                shown.push_str(format!(in alloc; "%{byte:02X}")?.as_str())?;
            }
        } else {
            shown.push(char)?;
        }
    }
    Ok(shown)
}

/// Writes a line to standard error.
pub fn warn(rt: &(impl Eprint + AllocGlobal), text: impl Display + Drop) {
    let alloc = rt.alloc();
    let line = match format!(in alloc; "{text}") {
        Ok(line) => shown(alloc, line.as_str()),
        Err(_) => Err(AllocError),
    };
    let _ = match line {
        Ok(line) => eprintln!(rt; "cm_import: {line}"),
        Err(_) => eprintln!(rt; "cm_import: out of memory"),
    };
}

/// Tells on standard error what failed, and gives the status.
pub fn fail(rt: &(impl Eprint + AllocGlobal), why: impl Display + Drop) -> Status {
    warn(rt, why);
    Status::Failed
}

/// Says why no cache opens from the file, as `cmcache check` does, and on standard error which file
/// that is: the arguments may be in another order than was meant.
pub fn say_not_opened(
    rt: &(impl Print + Eprint + AllocGlobal),
    path: &str,
    fault: OpenFault,
) -> Status {
    if let OpenFault::File(fault) = fault {
        warn(rt, format_args!("{path}: {fault}"));
    }
    match tell_fault(rt.alloc(), &mut io::writer(rt), fault) {
        Ok(status) => status,
        Err(fault) => fail(rt, fault),
    }
}

/// Says why the loader isn't added, and what a loader's name is if it has none.
pub fn say_refused(rt: &(impl Print + Eprint + AllocGlobal), refusal: Refusal) -> Status {
    if let Refusal::BadName = refusal {
        warn(
            rt,
            "LOADER has 1 to 96 bytes, with its tag, each 0x21 to 0x7E (printable ASCII)",
        );
    }
    let number = refusal.number();
    say(
        rt,
        format_args!("refused {number} {refusal}"),
        Status::Refused,
    )
}

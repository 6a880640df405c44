//! What a world replies.

ghost use Rattle.std.specs.Prelude.{◌≡◌};
ghost use Rattle.std.specs.Arc.{arc_value};
ghost use Rattle.std.specs.Option.{option_map};
ghost use Rattle.cm_world.specs.Steps.{command_reply, seal_reply, advance_reply, trim_reply};
ghost use Rattle.cm_world.specs.Steps.{FindsSame};

use cm_commands::Refusal;
use cm_commit::{AdvanceFault, NotIdle, Progress};
use cm_record::Record;
use cm_session::Sealed;
use std::alloc::{AllocError, Global};
use std::sync::Arc;

/// The result of an event.
#[derive(Drop)]
pub enum Reply {
    /// The command is accepted with this number.
    Accepted(u64),
    Refused(Refusal),
    /// These commands are handed out.
    Sealed(Sealed),
    /// All accepted commands were handed out.
    NothingToSeal,
    /// An allocation failed: nothing was done.
    NoMemory,
    /// No device call is left.
    Idle,
    /// A device call was made, and others are left.
    Working,
    /// The last device call of a group was made: all commands up to this number are durable.
    Done(u64),
    /// The last device call of a trim was made: the file has this many roots.
    Trimmed(u32),
    /// The file will be truncated, by the next two device calls.
    TrimDue,
    /// The file holds no root after the last that committed rows use.
    NothingToTrim,
    /// Something is under way, or the device failed earlier: nothing was done.
    NotIdle,
    /// The device failed in this call.
    DeviceFailed,
    /// The device failed earlier: no call was made.
    Broken,
    /// All commands up to this number are known to be durable.
    Learnt(u64),
    /// The class's record, if the loader has that class.
    Found(Option<Arc<Record, Global>>),
    /// The next device call will fail.
    Armed,
    /// The file is opened, with the number of its last command.
    Opened(u64),
}

/// The reply to a command.
pub(crate) fn command_reply(answer: Result<u64, Refusal>) -> Reply
    ensures { result ≡ command_reply answer }
{
    match answer {
        Ok(number) => Reply::Accepted(number),
        Err(refusal) => Reply::Refused(refusal),
    }
}

/// The reply when commands are to be handed out.
pub(crate) fn seal_reply(answer: Result<Option<Sealed>, AllocError>) -> Reply
    ensures { result ≡ seal_reply answer }
{
    match answer {
        Ok(Some(group)) => Reply::Sealed(group),
        Ok(None) => Reply::NothingToSeal,
        Err(_) => Reply::NoMemory,
    }
}

/// The reply when the committer is advanced.
pub(crate) fn advance_reply(answer: Result<Progress, AdvanceFault>) -> Reply
    ensures { result ≡ advance_reply answer }
{
    match answer {
        Ok(Progress::Idle) => Reply::Idle,
        Ok(Progress::Working) => Reply::Working,
        Ok(Progress::Done(receipt)) => Reply::Done(receipt.number),
        Ok(Progress::Trimmed(roots)) => Reply::Trimmed(roots),
        Err(AdvanceFault::Device) => Reply::DeviceFailed,
        Err(AdvanceFault::Broken) => Reply::Broken,
    }
}

/// The reply when the file is to be truncated.
pub(crate) fn trim_reply(answer: Result<bool, NotIdle>) -> Reply
    ensures { result ≡ trim_reply answer }
{
    match answer {
        Ok(true) => Reply::TrimDue,
        Ok(false) => Reply::NothingToTrim,
        Err(_) => Reply::NotIdle,
    }
}

/// The reply to a lookup: the record, shared again, with the same words.
pub(crate) fn look_reply(found: Option<&Arc<Record, Global>>) -> Reply
    ensures { FindsSame (option_map (λ r. arc_value r.now) found.entry) result }
{
    let Some(record) = found else {
        return Reply::Found(None);
    };
    match record.clone() {
        Ok(record) => Reply::Found(Some(record)),
        Err(_) => Reply::NoMemory,
    }
}

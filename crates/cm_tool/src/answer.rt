//! The reply of a cache to a line.

ghost use Rattle.std.specs.Prelude.{◌≡◌, ℕ, List, Some, IfOk};
ghost use Rattle.hex.specs.Hex.{decode_of};
ghost use Rattle.cm_lines.specs.Lines.{Asked, AsksDefine, AsksFind, asked_by};
ghost use Rattle.cm_lines.specs.Streams.{HoldsLine};
ghost use Rattle.cm_commands.specs.Commands.{change_asked};
ghost use Rattle.cm_session.specs.Storing.{refusal_told};
ghost use Rattle.cm_tool.specs.Texts.{number_reply, defined_reply, refusal_reply};
ghost use Rattle.cm_tool.specs.Replies.{IsReply};
ghost use Rattle.cm_tool.specs.Ahead.{IsClassOf, IsDefinedThere};
ghost use Rattle.cm_tool.specs.Serving.{Serves, IsAskedBy, ReportsStored};

use crate::Reply;
use crate::ahead::{Defined, LineClass, class_of};
use cm_commands::{Command, Names, Refusal};
use cm_disk::Disk;
use cm_lines::{Line, LineBuffer, NameFault, unescape};
use cm_record::{layout_determines_class, words_tell_name};
use cm_session::{NotStored, Session};
use std::alloc::{AllocError, Global};

/// Runs a line and makes its reply, with what is known of what the line defines. An `Err` says that
/// an allocation failed: for the reply, or before anything was done.
pub fn answer<D: Disk>(
    alloc: Global,
    session: &mut Session<D>,
    line: &LineBuffer,
    defined: Option<Defined>,
) -> Result<Reply, AllocError>
    requires { IsDefinedThere line.now defined }
    ensures machine { (text : List ℕ) → HoldsLine text line.now
        → Serves D.view (asked_by text) result session.old session.new }
    ensures sizes { session.new.committer.sizes ≡ session.old.committer.sizes }
{
    if let Some(Defined { loader, class }) = defined {
        return define(alloc, session, &loader, class);
    }
    match line.request() {
        Some(Line::Loader(name)) => change(alloc, session, Command::AddLoader(name)),
        Some(Line::Unload(name)) => change(alloc, session, Command::Unload(name)),
        Some(Line::Tighten(name)) => change(alloc, session, Command::Tighten(name)),
        Some(Line::UnloadAll(words)) => {
            change(alloc, session, Command::UnloadAll(Names::from_words(words)))
        }
        Some(Line::Define(loader, digits)) => {
            define(alloc, session, loader, class_of(alloc, digits))
        }
        Some(Line::Find(loader, class)) => find(alloc, session, loader, class),
        None => Reply::bad_line(alloc),
    }
}

/// Runs a command whose reply is just its number once it is done.
fn change<D: Disk>(
    alloc: Global,
    session: &mut Session<D>,
    command: Command<'_>,
) -> Result<Reply, AllocError>
    ensures machine { (request : Asked) → IsAskedBy request (change_asked command.entry)
        → Serves D.view (Some request) result session.old session.new }
    ensures sizes { session.new.committer.sizes ≡ session.old.committer.sizes }
{
    let stored = session.store(command);
    tell_number(alloc, stored)
}

/// The reply to a command whose reply is just its number once it is done.
fn tell_number(alloc: Global, stored: Result<u64, NotStored>) -> Result<Reply, AllocError>
    ensures { ReportsStored number_reply stored result }
{
    match stored {
        Ok(number) => Reply::ok(alloc, number),
        Err(fault) => reply_to_not_stored(alloc, fault),
    }
}

fn reply_to_not_stored(alloc: Global, fault: NotStored) -> Result<Reply, AllocError>
    ensures { IfOk result (IsReply (refusal_reply (refusal_told fault))) }
{
    Reply::refused(alloc, Refusal::from(fault))
}

/// Defines the class that a line's digits stand for.
fn define<D: Disk>(
    alloc: Global,
    session: &mut Session<D>,
    loader: &[u8],
    class: LineClass,
) -> Result<Reply, AllocError>
    ensures machine { (digits : List ℕ) → IsClassOf (decode_of digits) class
        → Serves D.view (Some (AsksDefine loader.now digits)) result session.old session.new }
    ensures sizes { session.new.committer.sizes ≡ session.old.committer.sizes }
{
    layout_determines_class();
    words_tell_name();
    match class {
        LineClass::Ready(class, name) => {
            let stored = session.store(Command::Define(loader, class));
            tell_class(alloc, stored, &name)
        }
        LineClass::Refused(refusal) => Reply::refused(alloc, refusal),
        LineClass::NoMemory => Err(AllocError),
    }
}

/// The reply to a define of a class of this name.
fn tell_class(
    alloc: Global,
    stored: Result<u64, NotStored>,
    name: &[u8],
) -> Result<Reply, AllocError>
    ensures { ReportsStored (λ n. defined_reply n name.now) stored result }
{
    match stored {
        Ok(number) => Reply::ok_class(alloc, number, name),
        Err(fault) => reply_to_not_stored(alloc, fault),
    }
}

fn find<D: Disk>(
    alloc: Global,
    session: &Session<D>,
    loader: &[u8],
    class: &[u8],
) -> Result<Reply, AllocError>
    ensures { Serves D.view (Some (AsksFind loader.now class.now)) result session.now session.now }
{
    let name = match unescape(alloc, class) {
        Ok(name) => name,
        Err(NameFault::BadEscape) => return Reply::bad_line(alloc),
        Err(NameFault::NoMemory) => return Err(AllocError),
    };
    match session.find(loader, &name) {
        Some(class) => Reply::class(alloc, &name, class),
        None => Reply::none(alloc),
    }
}

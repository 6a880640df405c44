//! The lines that are the replies to those of a simulation.

ghost use Rattle.std.specs.Prelude.{◌≡◌, ◌++◌, ◌∷◌, List, IfOk, OnOk};
ghost use Rattle.std.specs.Option.{option_map};
ghost use Rattle.std.specs.Arc.{arc_value};
ghost use Rattle.cm_events.specs.declared.simulation.Turn.{Turn};
ghost use Rattle.cm_events.specs.Texts.{numbered, refused_text, group_text, class_text};
ghost use Rattle.cm_events.specs.Texts.{reply_text, with_newline, answers, answers_behind};

use crate::simulation::Turn;
use cm_commands::Refusal;
use cm_lines::push_number;
use cm_record::Record;
use cm_session::Sealed;
use cm_world::Reply;
use std::alloc::{AllocError, Global};
use std::sync::Arc;

/// The lines that are the replies to those after a simulation's first, if these are the replies to
/// its events: one for each line, as long as there are replies.
pub fn answer_lines(alloc: Global, turns: &[Turn], replies: &[Reply]) -> Result<Vec<u8>, AllocError>
    ensures { IfOk result (λ text. text.items ≡ answers turns.now replies.now) }
{
    let mut text = Vec::new(alloc);
    let mut rest = replies;
    for turn in turns {
        match push_turn(&mut text, *turn, rest)? {
            Some(behind) => rest = behind,
            None => return Ok(text),
        }
    }
    Ok(text)
}

/// Appends the line of one turn, and returns which replies are left; `None` if there was none for
/// it.
fn push_turn<'a>(
    text: &mut Vec<u8>,
    turn: Turn,
    replies: &'a [Reply],
) -> Result<Option<&'a [Reply]>, AllocError>
    ensures { IfOk result (λ behind. (turns : List Turn)
        → text.old.items ++ answers (turn ∷ turns) replies.now
        ≡ text.new.items ++ answers_behind turns behind) }
{
    match turn {
        Turn::Refused(refusal) => {
            push_refused_line(text, refusal)?;
            Ok(Some(replies))
        }
        Turn::Runs => match replies.split_first() {
            Some((reply, behind)) => {
                push_reply_line(text, reply)?;
                Ok(Some(behind))
            }
            None => Ok(None),
        },
    }
}

fn push_refused_line(text: &mut Vec<u8>, refusal: Refusal) -> Result<(), AllocError>
    ensures { OnOk result
        (text.new.items ≡ text.old.items ++ with_newline (refused_text refusal)) }
{
    push_refused(text, refusal)?;
    text.push(b'\n')?;
    Ok(())
}

fn push_reply_line(text: &mut Vec<u8>, reply: &Reply) -> Result<(), AllocError>
    ensures { OnOk result
        (text.new.items ≡ text.old.items ++ with_newline (reply_text reply.now)) }
{
    push_reply(text, reply)?;
    text.push(b'\n')?;
    Ok(())
}

fn push_reply(text: &mut Vec<u8>, reply: &Reply) -> Result<(), AllocError>
    ensures { OnOk result (text.new.items ≡ text.old.items ++ reply_text reply.now) }
{
    match reply {
        Reply::Accepted(number) => push_numbered(text, b"number", *number),
        Reply::Refused(refusal) => push_refused(text, *refusal),
        Reply::Sealed(group) => push_group(text, *group),
        Reply::NothingToSeal => text.extend_from_slice(b"none"),
        Reply::NoMemory => push_refused(text, Refusal::NoMemory),
        Reply::Idle => text.extend_from_slice(b"idle"),
        Reply::Working => text.extend_from_slice(b"working"),
        Reply::Done(number) => push_numbered(text, b"done", *number),
        Reply::Trimmed(roots) => push_numbered(text, b"trimmed", u64::from(*roots)),
        Reply::TrimDue => text.extend_from_slice(b"due"),
        Reply::NothingToTrim => text.extend_from_slice(b"nothing"),
        Reply::NotIdle => text.extend_from_slice(b"not idle"),
        Reply::DeviceFailed => text.extend_from_slice(b"device"),
        Reply::Broken => text.extend_from_slice(b"broken"),
        Reply::Learnt(number) => push_numbered(text, b"learnt", *number),
        Reply::Found(found) => push_found(text, found),
        Reply::Armed => text.extend_from_slice(b"armed"),
        Reply::Opened(number) => push_numbered(text, b"opened", *number),
    }
}

fn push_refused(text: &mut Vec<u8>, refusal: Refusal) -> Result<(), AllocError>
    ensures { OnOk result (text.new.items ≡ text.old.items ++ refused_text refusal) }
{
    push_numbered(text, b"refused", u64::from(refusal.number()))
}

fn push_group(text: &mut Vec<u8>, group: Sealed) -> Result<(), AllocError>
    ensures { OnOk result (text.new.items ≡ text.old.items ++ group_text group) }
{
    push_numbered(text, b"group", group.first)?;
    push_numbered(text, b"", group.last)
}

fn push_found(text: &mut Vec<u8>, found: &Option<Arc<Record, Global>>) -> Result<(), AllocError>
    ensures { OnOk result
        (text.new.items ≡ text.old.items ++ class_text (option_map arc_value found.now)) }
{
    match found {
        Some(record) => push_numbered(text, b"class", u64::from(record.words())),
        None => text.extend_from_slice(b"none"),
    }
}

/// Adds a word, a space and a number.
fn push_numbered(text: &mut Vec<u8>, word: &[u8], number: u64) -> Result<(), AllocError>
    ensures { OnOk result (text.new.items ≡ text.old.items ++ numbered word.now number) }
{
    text.extend_from_slice(word)?;
    text.push(b' ')?;
    push_number(text, number)
}

//! The replies to a script's lines.

ghost use Rattle.std.specs.Prelude.{◌≡◌, ◌++◌, length, IfOk, OnOk};
ghost use Rattle.cm_class.specs.declared.class_file.ClassFile.{ClassFile};
ghost use Rattle.cm_record.specs.Layout.{IsRecord, IsRecordOf};
ghost use Rattle.cm_tool.specs.Texts.{number_reply, defined_reply, none_reply, class_reply};
ghost use Rattle.cm_tool.specs.Texts.{refused_reply, unsure_reply, refusal_reply};
ghost use Rattle.cm_tool.specs.Texts.{bad_line_reply};
ghost use Rattle.cm_tool.specs.Replies.{IsReply};

use crate::texts::{push_flags, text, word_with_number};
use cm_commands::Refusal;
use cm_lines::{escape_into, push_number};
use cm_record::Record;
use std::alloc::{AllocError, Global};

/// What a reply says of its command.
#[derive(Clone, Copy, Debug, PartialEq, Eq)]
pub enum ReplyKind {
    /// It is done.
    Done,
    /// It isn't done, and nothing is changed.
    Refused,
    /// The device failed before the command's receipt.
    Unsure,
}

/// A reply: its line, with the newline.
#[derive(Debug, Drop)]
pub struct Reply {
    pub kind: ReplyKind,
    pub line: Vec<u8>,
}

impl Reply {
    /// `ok N`: a command is done, and has this number.
    pub fn ok(alloc: Global, number: u64) -> Result<Reply, AllocError>
        ensures { IfOk result (IsReply (number_reply number)) }
    {
        end(ReplyKind::Done, word_with_number(alloc, b"ok ", number)?)
    }

    /// `ok N CLASS`: the class of this name is defined.
    pub fn ok_class(alloc: Global, number: u64, name: &[u8]) -> Result<Reply, AllocError>
        ensures { IfOk result (IsReply (defined_reply number name.now)) }
    {
        let mut line = word_with_number(alloc, b"ok ", number)?;
        line.extend_from_slice(b" ")?;
        escape_into(&mut line, name)?;
        end(ReplyKind::Done, line)
    }

    /// `class CLASS flags HHHH super S words W`: this class is found under this name.
    pub fn class(alloc: Global, name: &[u8], class: &Record) -> Result<Reply, AllocError>
        ensures given { (c : ClassFile) → IsRecordOf c class.now
            → IfOk result (IsReply (class_reply name.now c (length class.now))) }
        ensures laid { OnOk result (IsRecord class.now) }
    {
        let mut line = text(alloc, b"class ")?;
        escape_into(&mut line, name)?;
        line.extend_from_slice(b" flags ")?;
        push_flags(alloc, &mut line, class.flags())?;
        line.extend_from_slice(b" super ")?;
        match class.super_name(alloc)? {
            Some(super_name) => escape_into(&mut line, &super_name)?,
            None => line.extend_from_slice(b"-")?,
        }
        line.extend_from_slice(b" words ")?;
        push_number(&mut line, u64::from(class.words()))?;
        end(ReplyKind::Done, line)
    }

    /// `none`: there is no such class.
    pub fn none(alloc: Global) -> Result<Reply, AllocError>
        ensures { IfOk result (IsReply none_reply) }
    {
        end(ReplyKind::Done, text(alloc, b"none")?)
    }

    /// `refused K TEXT`, and `unsure N` for an unsure command. For a class that breaks a rule, the
    /// text is `V`, the rule's number and the place.
    pub fn refused(alloc: Global, refusal: Refusal) -> Result<Reply, AllocError>
        ensures { IfOk result (IsReply (refusal_reply refusal)) }
    {
        let why = refusal.to_string(alloc)?.into_bytes();
        match refusal {
            Refusal::Unsure(_) => end(ReplyKind::Unsure, why),
            _ => refusal_line(alloc, refusal.number(), &why),
        }
    }

    /// `unsure N`: the device failed before the receipt of the command of this number.
    pub fn unsure(alloc: Global, number: u64) -> Result<Reply, AllocError>
        ensures { IfOk result (IsReply (unsure_reply number)) }
    {
        Reply::refused(alloc, Refusal::Unsure(number))
    }

    /// `refused 15 line`: the line has none of the known forms.
    pub fn bad_line(alloc: Global) -> Result<Reply, AllocError>
        ensures { IfOk result (IsReply bad_line_reply) }
    {
        Reply::refused(alloc, Refusal::BadLine)
    }
}

/// `refused K TEXT` with this number and text.
fn refusal_line(alloc: Global, number: u8, why: &[u8]) -> Result<Reply, AllocError>
    ensures { IfOk result (IsReply (refused_reply number why.now)) }
{
    let mut line = word_with_number(alloc, b"refused ", u64::from(number))?;
    line.extend_from_slice(b" ")?;
    line.extend_from_slice(why)?;
    end(ReplyKind::Refused, line)
}

/// The reply made of a line without its newline.
fn end(kind: ReplyKind, mut line: Vec<u8>) -> Result<Reply, AllocError>
    ensures { IfOk result (IsReply (record { kind = kind; text = line.items })) }
{
    line.push(b'\n')?;
    Ok(Reply { kind, line })
}

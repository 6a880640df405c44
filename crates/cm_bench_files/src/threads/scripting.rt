//! The lines of a script, each through the pass of a thread.

use crate::threads::mixing::{Answer, answer_of, found};
use anyhow::{Result, bail};
use cm_commands::{Names, Refusal, prepare};
use cm_library::{Cache, Naming, Pass};
use cm_lines::{Line, parse};
use std::alloc::{AllocError, Global};
use std::sync::Wait;

/// Which lines of a script are a thread's: every `threads`th, from the one of its own number on.
#[derive(Clone, Copy, Debug)]
pub struct Part {
    pub thread: u32,
    pub threads: u32,
}

/// A line, from 0, and its result.
#[derive(Clone, Copy, Debug)]
pub struct Reply {
    pub line: usize,
    pub answer: Answer,
}

/// The lines of a script; an error if one is no request.
pub fn lines_of(alloc: Global, script: &[u8]) -> Result<Vec<&[u8]>> {
    let mut lines = Vec::new(alloc);
    for line in script.split(|byte| *byte == b'\n') {
        if !line.is_empty() {
            if parse(line).is_none() {
                bail!("line {} is no request", lines.len() + 1);
            }
            lines.push(line)?;
        }
    }
    Ok(lines)
}

/// Defines the class that the digits stand for.
fn define<K: Naming, R: Wait>(
    rt: &R,
    alloc: Global,
    cache: &Cache<K>,
    pass: &mut Pass<K>,
    loader: &[u8],
    digits: &[u8],
) -> Result<u64, Refusal> {
    let Ok(bytes) = hex::decode(alloc, digits) else {
        return Err(Refusal::BadLine);
    };
    let class = prepare(alloc, &bytes)?;
    cache.define(rt, pass, loader, class)
}

/// Does what a line requests.
fn run_line<K: Naming, R: Wait>(
    rt: &R,
    alloc: Global,
    cache: &Cache<K>,
    pass: &mut Pass<K>,
    line: &[u8],
) -> Answer {
    match parse(line) {
        Some(Line::Loader(name)) => answer_of(cache.add_loader(rt, pass, name)),
        Some(Line::Unload(name)) => answer_of(cache.unload(rt, pass, name)),
        Some(Line::Tighten(name)) => answer_of(cache.tighten(rt, pass, name)),
        Some(Line::UnloadAll(words)) => {
            answer_of(cache.unload_all(rt, pass, Names::from_words(words)))
        }
        Some(Line::Define(loader, digits)) => {
            answer_of(define(rt, alloc, cache, pass, loader, digits))
        }
        Some(Line::Find(loader, class)) => found(cache.find(rt, loader, class)),
        None => Answer::Refused(Refusal::BadLine.number()),
    }
}

/// Does what a thread's lines request, in their order.
pub fn run_part<K: Naming, R: Wait>(
    rt: &R,
    alloc: Global,
    cache: &Cache<K>,
    pass: &mut Pass<K>,
    lines: &[&[u8]],
    part: Part,
) -> Result<Vec<Reply>, AllocError> {
    let mut replies = Vec::new(alloc);
    for (line, text) in lines.iter().enumerate() {
        if (line as u64).checked_rem(u64::from(part.threads)) == Some(u64::from(part.thread)) {
            let answer = run_line(rt, alloc, cache, pass, text);
            replies.push(Reply { line, answer })?;
        }
    }
    Ok(replies)
}

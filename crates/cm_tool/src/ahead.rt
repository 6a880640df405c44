//! Lines that are read ahead, and the classes that they define.

ghost use Rattle.std.specs.Prelude.{◌≡◌, ◌<◌, ◌≤◌, Ok, None, IfSome, IfErr};
ghost use Rattle.std.specs.Io.KnownBytes.{Keeps};
ghost use Rattle.std.specs.Thread.{IsSync};
ghost use Rattle.hex.specs.Hex.{decode_of};
ghost use Rattle.cm_tool.specs.Ahead.{IsClassOf, IsDefinedThere};

use cm_commands::{Prepared, Refusal, prepare};
use cm_lines::{Line, LineBuffer, LineFault, cut, read_line};
use hex::FromHexError;
use std::alloc::Global;
use std::io::{BufRead, ErrorKind};
use std::marker::Model;
use std::thread;
use std::thread::Threads;
use std::vec::IntoIter;

/// How many lines are looked at at once at most.
const MOST_LINES: usize = 1_024;

/// How many bytes of lines are worth a thread: to start it, and to read these lines twice, takes
/// less than it saves.
const BYTES_A_THREAD: usize = 131_072;

/// The class that a line defines.
#[derive(Drop)]
pub enum LineClass {
    /// It is prepared, with its name.
    Ready(Prepared, Vec<u8>),
    /// There is none that can be defined.
    Refused(Refusal),
    /// An allocation failed for its bytes or its name.
    NoMemory,
}

/// What a line defines.
#[derive(Drop)]
pub struct Defined {
    pub loader: Vec<u8>,
    pub class: LineClass,
}

/// What is known of a script's lines before they are run.
pub trait Ahead {
    /// What looking ahead rests on.
    ghost may_look: { Type 0 };

    /// Called before a line is read: may look at what the reader shows, and takes nothing from it.
    fn look<R: BufRead>(&mut self, alloc: Global, reader: &mut R) -> Result<(), LineFault>
        requires { may_look }
        ensures keeps { Keeps (R.remaining reader.old) (R.remaining reader.new) }
        ensures fault { IfErr result (λ e. e ≡ LineFault.Input) };

    /// What a line defines, if that is known.
    fn defined(&mut self, line: &LineBuffer) -> Option<Defined>
        ensures { IsDefinedThere line.now result };
}

/// Nothing is known of a line before it is run.
#[derive(Drop)]
pub struct NothingAhead;

impl Ahead for NothingAhead {
    ghost may_look = { Unit {0} };

    fn look<R: BufRead>(&mut self, _alloc: Global, _reader: &mut R) -> Result<(), LineFault> {
        Ok(())
    }

    fn defined(&mut self, _line: &LineBuffer) -> Option<Defined> {
        None
    }
}

/// The lines that the reader shows, whose classes are prepared by several threads if that is worth
/// it.
#[derive(Drop)]
pub struct LinesAhead<'a, T> {
    rt: &'a T,
    /// How many threads at most.
    workers: usize,
    /// The next lines, if their classes are prepared.
    lines: IntoIter<LineAhead>,
    /// How many lines are run before the reader is looked at again.
    left: usize,
    ghost has_workers: { 0 < workers },
}

impl<'a, T: Threads + Sync> LinesAhead<'a, T> {
    /// No lines yet.
    pub fn new(rt: &'a T, alloc: Global, workers: usize) -> LinesAhead<'a, T>
        requires { 0 < workers }
    {
        LinesAhead {
            rt,
            workers,
            lines: Vec::new(alloc).into_iter(),
            left: 0,
        }
    }

    /// Prepares the classes of the lines that are shown whole, if that is worth several threads.
    fn prepare(&mut self, alloc: Global, shown: &[u8]) {
        let (mut lines, bytes) = read_lines(alloc, shown);
        self.left = lines.len();
        let threads = (bytes / BYTES_A_THREAD).clamp(1, self.workers);
        if threads > 1 {
            thread::for_each_mut(
                self.rt,
                &mut lines,
                threads,
                &|_, line: &mut LineAhead| { line.prepare(alloc) },
            );
            self.lines = lines.into_iter();
        }
    }
}

impl<T: Threads + Sync> Ahead for LinesAhead<'_, T> {
    ghost may_look = { IsSync T.row };

    fn look<R: BufRead>(&mut self, alloc: Global, reader: &mut R) -> Result<(), LineFault> {
        if self.left == 0 {
            match reader.fill_buf() {
                Ok(shown) => self.prepare(alloc, shown),
                Err(error) if error.kind() == ErrorKind::Interrupted => {}
                Err(_) => return Err(LineFault::Input),
            }
        }
        self.left = self.left.saturating_sub(1);
        Ok(())
    }

    fn defined(&mut self, line: &LineBuffer) -> Option<Defined> {
        let Known {
            line: ahead,
            defined,
        } = self.lines.next()?.into_known();
        if line.is_same_line(&ahead) {
            defined
        } else {
            None
        }
    }
}

/// A line, and what is known of what it defines.
#[derive(Drop)]
pub struct Known {
    pub line: LineBuffer,
    /// `None` before it is prepared, and if it defines nothing.
    pub defined: Option<Defined>,
}

/// A line that is read ahead. If it is known what it defines, this line defines that.
#[derive(Drop)]
pub struct LineAhead {
    known: Known,
}

impl Model for LineAhead {
    ghost use Rattle.cm_tool.specs.declared.ahead.Known.{Known};
    ghost use Rattle.cm_tool.specs.Ahead.{IsDefinedThere};

    ghost Value = { Known };

    ghost view = { λ a. a.known };

    ghost invariant = { λ a. IsDefinedThere a.known.line a.known.defined };
}

impl LineAhead {
    /// A line whose class isn't prepared.
    fn new(line: LineBuffer) -> LineAhead
        ensures { result ≡ record { line = line; defined = None } }
    {
        LineAhead {
            known: Known {
                line,
                defined: None,
            },
        }
    }

    /// Prepares the class, if the line defines one.
    fn prepare(&mut self, alloc: Global)
        ensures { self.new.line ≡ self.old.line }
    {
        self.known.defined = prepared(alloc, &self.known.line);
    }

    /// The line, and what is known of what it defines.
    fn into_known(self) -> Known
        ensures value { result ≡ self }
        ensures defined { IsDefinedThere result.line result.defined }
    {
        self.known
    }
}

/// What a line defines, if it defines a class.
fn prepared(alloc: Global, line: &LineBuffer) -> Option<Defined>
    ensures { IsDefinedThere line.now result }
{
    match line.request() {
        Some(Line::Define(loader, digits)) => defined_by(alloc, loader, digits),
        _ => None,
    }
}

/// What a line with this loader's name and these digits defines. `None` if an allocation failed for
/// the name.
fn defined_by(alloc: Global, loader: &[u8], digits: &[u8]) -> Option<Defined>
    ensures { IfSome result (λ d. (d.loader.items ≡ loader.now)
        × IsClassOf (decode_of digits.now) d.class) }
{
    match loader.to_vec(alloc) {
        Ok(loader) => Some(Defined {
            loader,
            class: class_of(alloc, digits),
        }),
        Err(_) => None,
    }
}

/// The class whose bytes these digits stand for.
pub fn class_of(alloc: Global, digits: &[u8]) -> LineClass
    ensures { IsClassOf (decode_of digits.now) result }
{
    match hex::decode(alloc, digits) {
        Ok(bytes) => class_of_bytes(alloc, &bytes),
        Err(FromHexError::OutOfMemory) => LineClass::NoMemory,
        Err(_) => LineClass::Refused(Refusal::BadLine),
    }
}

fn class_of_bytes(alloc: Global, bytes: &[u8]) -> LineClass
    ensures { IsClassOf (Ok bytes.now) result }
{
    let class = match prepare(alloc, bytes) {
        Ok(class) => class,
        Err(fault) => return LineClass::Refused(Refusal::from(fault)),
    };
    match class.class_name(alloc) {
        Ok(name) => LineClass::Ready(class, name),
        Err(_) => LineClass::NoMemory,
    }
}

/// The first whole lines of what a reader shows, up to a limit and as far as there is memory, and
/// how many bytes they have, with their newlines. What follows them isn't looked at.
fn read_lines(alloc: Global, shown: &[u8]) -> (Vec<LineAhead>, usize) {
    let mut rest = shown;
    let mut lines = Vec::new(alloc);
    for _ in 0..MOST_LINES {
        let Some((_, others)) = cut(rest, b'\n') else {
            break;
        };
        let (mut whole, _) = rest.split_at(rest.len().saturating_sub(others.len()));
        let mut line = LineBuffer::new(alloc);
        if !matches!(read_line(&mut whole, &mut line), Ok(true)) {
            break;
        }
        if lines.push(LineAhead::new(line)).is_err() {
            break;
        }
        rest = others;
    }
    (lines, shown.len().saturating_sub(rest.len()))
}

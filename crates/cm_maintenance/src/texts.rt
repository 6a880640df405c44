//! The lines that say what a file holds, or why it isn't opened.

ghost use Rattle.std.specs.Prelude.{◌≡◌, ◌+◌, ◌++◌, [], ◌∷◌, IfOk, OnOk};
ghost use Rattle.std.specs.List.{flat_map};
ghost use Rattle.cm_maintenance.specs.Listing.{shown};
ghost use Rattle.cm_maintenance.specs.Texts.{report_line, listed_line, list_lines, fault_line};
ghost use Rattle.cm_maintenance.specs.Texts.{roots_line};

use crate::{ListedClass, ListedLoader, Report};
use cm_lines::{escape_into, push_number};
use cm_pool::Place;
use cm_verdict::OpenFault;
use std::alloc::{AllocError, Global};

/// `ok loaders L classes C chunks K number N`.
pub(crate) fn line_of_report(alloc: Global, report: Report) -> Result<Vec<u8>, AllocError>
    ensures { IfOk result (λ line. line.items ≡ report_line report) }
{
    let mut line = Vec::from_slice(alloc, b"ok loaders ")?;
    push_number(&mut line, report.loaders as u64)?;
    line.extend_from_slice(b" classes ")?;
    push_number(&mut line, report.classes as u64)?;
    line.extend_from_slice(b" chunks ")?;
    push_number(&mut line, report.chunks as u64)?;
    line.extend_from_slice(b" number ")?;
    push_number(&mut line, report.number)?;
    line.push(b'\n')?;
    Ok(line)
}

/// `roots N`.
pub(crate) fn line_of_roots(alloc: Global, roots: u32) -> Result<Vec<u8>, AllocError>
    ensures { IfOk result (λ line. line.items ≡ roots_line roots) }
{
    let mut line = Vec::from_slice(alloc, b"roots ")?;
    push_number(&mut line, u64::from(roots))?;
    line.push(b'\n')?;
    Ok(line)
}

/// `not a cache`, `damaged KIND SLOT`, `device` or `memory`.
pub(crate) fn line_of_fault(alloc: Global, fault: OpenFault) -> Result<Vec<u8>, AllocError>
    ensures { IfOk result (λ line. line.items ≡ fault_line fault) }
{
    let line = format!(in alloc; "{fault}\n")?;
    Ok(line.into_bytes())
}

/// The lines of a list: those of one loader after those of the one before.
pub(crate) fn lines_of_list(alloc: Global, loaders: &[ListedLoader]) -> Result<Vec<u8>, AllocError>
    ensures { IfOk result (λ lines. lines.items ≡ list_lines (shown loaders.now)) }
{
    let mut lines = Vec::new(alloc);
    for loader in loaders {
        push_loader(alloc, &mut lines, loader)?;
    }
    Ok(lines)
}

/// `loader NAME`, and the lines of its classes.
fn push_loader(alloc: Global, lines: &mut Vec<u8>, loader: &ListedLoader) -> Result<(), AllocError>
    ensures { OnOk result (lines.new.items ≡ lines.old.items
        ++ list_lines (shown (loader.now ∷ []))) }
{
    lines.extend_from_slice(b"loader ")?;
    lines.extend_from_slice(&loader.name)?;
    lines.push(b'\n')?;
    push_classes(alloc, lines, &loader.classes)
}

fn push_classes(
    alloc: Global,
    lines: &mut Vec<u8>,
    classes: &[ListedClass],
) -> Result<(), AllocError>
    ensures { OnOk result (lines.new.items ≡ lines.old.items ++ flat_map listed_line classes.now) }
{
    for class in classes {
        let line = line_of_class(alloc, class)?;
        lines.extend_from_slice(&line)?;
    }
    Ok(())
}

/// `class CLASS words W root R at P`: P is the first word of its record in its root.
fn line_of_class(alloc: Global, class: &ListedClass) -> Result<Vec<u8>, AllocError>
    ensures { IfOk result (λ line. line.items ≡ listed_line class.now) }
{
    let name = class.class.class_name(alloc)?;
    let mut line = Vec::from_slice(alloc, b"class ")?;
    escape_into(&mut line, &name)?;
    line.extend_from_slice(b" words ")?;
    push_number(&mut line, u64::from(class.class.words()))?;
    line.extend_from_slice(b" root ")?;
    push_number(&mut line, u64::from(class.place.chunk.root))?;
    line.extend_from_slice(b" at ")?;
    push_number(&mut line, first_word(class.place))?;
    line.push(b'\n')?;
    Ok(line)
}

/// The first word of a place, counted from the beginning of its root.
fn first_word(place: Place) -> u64
    ensures { result ≡ place.chunk.at + place.offset }
{
    u64::from(place.chunk.at) + u64::from(place.offset)
}

//! What the records of classes say about their methods.

use crate::classes::samples::record_of;
use anyhow::Result;
use cm_class::Class;
use cm_record::{Code, Record};
use std::str;

/// What the record says about a method's code: max stack, max locals and the code's length.
fn code_of(record: &Record, name: &[u8], descriptor: &[u8]) -> Option<Code> {
    let member = record.method(name, descriptor)?;
    record.code(&member)
}

/// Prints the names of a method: class, name, descriptor.
fn print_names(
    rt: &(impl Print + AllocGlobal),
    class: &[u8],
    name: &[u8],
    descriptor: &[u8],
) -> Result<()> {
    let (class, name) = (str::from_utf8(class)?, str::from_utf8(name)?);
    let descriptor = str::from_utf8(descriptor)?;
    print!(rt; "{class} {name} {descriptor} ")?;
    Ok(())
}

/// Prints max stack, max locals and how many bytes the code has; or `none`.
fn print_code(rt: &(impl Print + AllocGlobal), code: Option<Code>) -> Result<()> {
    match code {
        Some(code) => {
            let (stack, locals, len) = (code.max_stack, code.max_locals, code.code_len);
            println!(rt; "{stack} {locals} {len}")?;
        }
        None => println!(rt; "none")?,
    }
    Ok(())
}

/// Prints a line for each method of a class, given its record and its name.
fn print_methods_in(
    rt: &(impl Print + AllocGlobal),
    record: &Record,
    class: &Class,
    class_name: &[u8],
) -> Result<()> {
    for method in class.methods() {
        let (name, descriptor) = (class.utf8(method.name), class.utf8(method.descriptor));
        print_names(rt, class_name, name, descriptor)?;
        print_code(rt, code_of(record, name, descriptor))?;
    }
    Ok(())
}

/// Prints a line for each method of a record.
fn print_methods_of(rt: &(impl Print + AllocGlobal), record: &Record) -> Result<()> {
    let class_name = record.class_name(rt.alloc())?;
    let mut spelling = Vec::new(rt.alloc());
    let class = record.to_class(rt.alloc(), &mut spelling)?;
    print_methods_in(rt, record, &class, &class_name)
}

/// Prints the methods of those classes that have a record, in their order.
pub fn print_methods(rt: &(impl Print + AllocGlobal), classes: &[&[u8]]) -> Result<()> {
    for class in classes {
        if let Some(record) = record_of(rt.alloc(), class)? {
            print_methods_of(rt, &record)?;
        }
    }
    Ok(())
}

//! A class as one JSON object.

use crate::shown::{ShownAttribute, ShownClass, ShownConstant, ShownMember};
use serde_json::{Value, json};
use std::alloc::{AllocError, Global};

/// A text, which is printable ASCII as it is spelled.
fn text_value(alloc: Global, text: &[u8]) -> Result<Value, AllocError> {
    let text = String::from_utf8_lossy(alloc, text)?;
    json!(in alloc; text)
}

fn texts_value(alloc: Global, texts: &[Vec<u8>]) -> Result<Value, AllocError> {
    let mut list = Vec::new(alloc);
    for text in texts {
        list.push(text_value(alloc, text)?)?;
    }
    Ok(Value::Array(list))
}

fn attributes_value(alloc: Global, attributes: &[ShownAttribute]) -> Result<Value, AllocError> {
    let mut list = Vec::new(alloc);
    for attribute in attributes {
        let name = text_value(alloc, &attribute.name)?;
        let value = json!(in alloc; {"name": name, "length": (u64::from(attribute.len))})?;
        list.push(value)?;
    }
    Ok(Value::Array(list))
}

fn member_value(alloc: Global, member: &ShownMember) -> Result<Value, AllocError> {
    let name = text_value(alloc, &member.name)?;
    let descriptor = text_value(alloc, &member.descriptor)?;
    let attributes = attributes_value(alloc, &member.attributes)?;
    let nested = attributes_value(alloc, &member.nested)?;
    json!(in alloc; {
        "flags": (u64::from(member.flags)),
        "name": name,
        "descriptor": descriptor,
        "attributes": attributes,
        "nested": nested
    })
}

fn members_value(alloc: Global, members: &[ShownMember]) -> Result<Value, AllocError> {
    let mut list = Vec::new(alloc);
    for member in members {
        list.push(member_value(alloc, member)?)?;
    }
    Ok(Value::Array(list))
}

/// The constants, or null if they aren't wanted.
fn constants_value(
    alloc: Global,
    constants: &[ShownConstant],
    wanted: bool,
) -> Result<Value, AllocError> {
    if !wanted {
        return Ok(Value::Null);
    }
    let mut list = Vec::new(alloc);
    for constant in constants {
        let value = text_value(alloc, &constant.value)?;
        let shown = json!(in alloc; {
            "index": (u64::from(constant.index)),
            "kind": (constant.kind),
            "value": value
        })?;
        list.push(shown)?;
    }
    Ok(Value::Array(list))
}

/// The whole class, and the end of its line.
pub fn spell(alloc: Global, class: &ShownClass, constants: bool) -> Result<Vec<u8>, AllocError> {
    let super_name = match &class.super_name {
        Some(name) => text_value(alloc, name)?,
        None => Value::Null,
    };
    let name = text_value(alloc, &class.name)?;
    let interfaces = texts_value(alloc, &class.interfaces)?;
    let fields = members_value(alloc, &class.fields)?;
    let methods = members_value(alloc, &class.methods)?;
    let attributes = attributes_value(alloc, &class.attributes)?;
    let constants = constants_value(alloc, &class.constants, constants)?;
    let whole = json!(in alloc; {
        "flags": (u64::from(class.flags)),
        "name": name,
        "super": super_name,
        "interfaces": interfaces,
        "fields": fields,
        "methods": methods,
        "attributes": attributes,
        "constants": constants
    })?;
    let mut text = whole.to_vec(alloc)?;
    text.push(b'\n')?;
    Ok(text)
}

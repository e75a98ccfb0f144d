use crate::quoted::quoted;
use crate::unread::{Unread, unreadable};
use std::alloc::{AllocError, Global};

/// A line at the margin, and the indented lines below it.
#[derive(Drop)]
pub(crate) struct Field {
    pub head: String,
    pub inside: String,
    pub has_inside: bool,
}

/// The fields of a body.
pub(crate) fn fields(alloc: Global, body: &str) -> Result<Vec<Field>, AllocError> {
    let mut fields: Vec<Field> = Vec::new(alloc);
    let mut blanks = 0usize;
    for line in body.lines() {
        if line.trim().is_empty() {
            blanks = blanks.saturating_add(1);
            continue;
        }
        match (line.strip_prefix("    "), fields.last_mut()) {
            (Some(text), Some(field)) => push_inside(field, blanks, text)?,
            _ => fields.push(headed(alloc, line)?)?,
        }
        blanks = 0;
    }
    Ok(fields)
}

/// A field with nothing below its line yet.
fn headed(alloc: Global, line: &str) -> Result<Field, AllocError> {
    Ok(Field {
        head: String::from_str(alloc, line)?,
        inside: String::new(alloc),
        has_inside: false,
    })
}

fn push_inside(field: &mut Field, blanks: usize, text: &str) -> Result<(), AllocError> {
    if field.has_inside {
        field.inside.push_str("\n")?;
        for _ in 0..blanks {
            field.inside.push_str("\n")?;
        }
    }
    field.has_inside = true;
    field.inside.push_str(text)
}

/// The text of a field: the quoted texts of its line, or its indented lines, each of which ends with a newline.
pub(crate) fn content(alloc: Global, line: &str, field: &Field) -> Result<Vec<u8>, Unread> {
    let line = line.trim();
    if line == "no newline" {
        return Ok(Vec::from_slice(alloc, field.inside.as_bytes())?);
    }
    if field.has_inside {
        return lines(alloc, line, field);
    }
    match quoted(alloc, line)? {
        Some(bytes) => Ok(bytes),
        None => Err(unreadable(&field.head)),
    }
}

fn lines(alloc: Global, line: &str, field: &Field) -> Result<Vec<u8>, Unread> {
    if !line.is_empty() {
        return Err(unreadable(&field.head));
    }
    let mut bytes = Vec::from_slice(alloc, field.inside.as_bytes())?;
    bytes.push(b'\n')?;
    Ok(bytes)
}

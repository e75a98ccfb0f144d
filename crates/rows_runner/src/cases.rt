use crate::fields::{Field, content, fields};
use crate::unread::{Unread, unreadable};
use std::alloc::{AllocError, Global};

/// A file's content, the input or the output, under its name.
#[derive(Drop)]
pub(crate) struct Text {
    pub key: String,
    pub bytes: Vec<u8>,
}

/// A call's line, and what it leaves.
#[derive(Drop)]
pub(crate) struct Asked {
    pub line: String,
    pub leaves: Vec<Text>,
}

/// What is given, and the calls, each of which begins anew.
#[derive(Drop)]
pub(crate) struct Case {
    pub given: Vec<Text>,
    pub calls: Vec<Asked>,
}

/// The text under a key.
pub(crate) fn text_of<'a>(texts: &'a [Text], key: &str) -> Option<&'a [u8]> {
    for text in texts {
        if text.key.as_str() == key {
            return Some(text.bytes.as_slice());
        }
    }
    None
}

/// What stands before the `:` of a text's line, and behind it.
fn key_of(head: &str) -> Option<(&str, &str)> {
    match head.split_once(':') {
        Some((key, rest)) if !key.is_empty() && !key.contains(' ') => Some((key, rest)),
        _ => None,
    }
}

impl Case {
    /// Whether a text may stand here: above the calls it is given, below one it is left by it.
    fn may_stand(&self, key: &str) -> bool {
        match self.calls.last() {
            None => key != "prints" && key != "left" && text_of(&self.given, key).is_none(),
            Some(call) => key != "input" && text_of(&call.leaves, key).is_none(),
        }
    }

    /// Takes a text, which is given above the calls, and left by the call below which it stands.
    fn push_text(&mut self, text: Text) -> Result<(), AllocError> {
        match self.calls.last_mut() {
            None => self.given.push(text)?,
            Some(call) => call.leaves.push(text)?,
        }
        Ok(())
    }

    fn take(&mut self, alloc: Global, field: &Field) -> Result<(), Unread> {
        if let Some((key, rest)) = key_of(field.head.as_str()) {
            if !self.may_stand(key) {
                return Err(unreadable(&field.head));
            }
            let bytes = content(alloc, rest, field)?;
            let key = String::from_str(alloc, key)?;
            return Ok(self.push_text(Text { key, bytes })?);
        }
        if field.has_inside {
            return Err(unreadable(&field.head));
        }
        let line = field.head.clone()?;
        let leaves = Vec::new(alloc);
        self.calls.push(Asked { line, leaves })?;
        Ok(())
    }
}

/// Reads a case.
pub(crate) fn case_of(alloc: Global, body: &str) -> Result<Case, Unread> {
    let fields = fields(alloc, body)?;
    let mut case = Case {
        given: Vec::new(alloc),
        calls: Vec::new(alloc),
    };
    for field in &fields {
        case.take(alloc, field)?;
    }
    Ok(case)
}

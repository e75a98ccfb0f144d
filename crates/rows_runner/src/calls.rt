use crate::quoted::quoted;
use crate::unread::{Unread, unreadable};
use std::alloc::{AllocError, Global};

/// A call of the host that fails, and how many bytes are written before.
#[derive(Clone, Copy)]
pub(crate) struct Failing {
    pub call: u64,
    pub kept: usize,
}

/// What a call's line says: the words, how the host fails, the status, and the note as it stands there.
#[derive(Clone, Copy)]
pub(crate) struct Line<'a> {
    pub words: &'a str,
    pub failing: &'a str,
    pub status: u8,
    pub note: &'a str,
}

/// `call N fails after K`.
pub(crate) fn read_failing(piece: &str) -> Option<Failing> {
    let (call, kept) = piece.strip_prefix("call ")?.split_once(" fails after ")?;
    let call = call.parse::<u64>().ok()?;
    let kept = kept.parse::<usize>().ok()?;
    Some(Failing { call, kept })
}

/// `WORDS -> STATUS NOTE`. Behind the words and a comma may stand how the host fails.
pub(crate) fn read_line(line: &str) -> Option<Line<'_>> {
    let (asked, answered) = line.split_once("->")?;
    let answered = answered.trim();
    let (status, note) = answered.split_once(' ').unwrap_or((answered, ""));
    let (words, failing) = asked.split_once(", ").unwrap_or((asked, ""));
    Some(Line {
        words,
        failing,
        status: status.parse::<u8>().ok()?,
        note: note.trim(),
    })
}

/// The words of a command. `""` is the empty word.
pub(crate) fn words(alloc: Global, text: &str) -> Result<Vec<String>, AllocError> {
    let mut words = Vec::new(alloc);
    for word in text.split_whitespace() {
        let word = if word == "\"\"" { "" } else { word };
        words.push(String::from_str(alloc, word)?)?;
    }
    Ok(words)
}

/// The note of an answer: texts in quotes, or a line as it stands.
pub(crate) fn note(alloc: Global, text: &str, line: &String) -> Result<Vec<u8>, Unread> {
    if text.is_empty() || text.starts_with('"') {
        return match quoted(alloc, text)? {
            Some(note) => Ok(note),
            None => Err(unreadable(line)),
        };
    }
    let mut note = Vec::from_slice(alloc, text.as_bytes())?;
    note.push(b'\n')?;
    Ok(note)
}

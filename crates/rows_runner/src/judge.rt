use crate::calls::{Line, note, read_failing, read_line, words};
use crate::cases::{Asked, Case, Text, case_of, text_of};
use crate::command::Command;
use crate::plan::Plan;
use crate::unread::{Unread, unreadable};
use ib_base::MemHost;
use std::alloc::{AllocError, Global};

/// How many calls a case has, and what did not come out as stated.
#[derive(Drop)]
pub(crate) struct Found {
    pub calls: u64,
    pub wrong: Vec<String>,
}

impl Found {
    /// Counts a call, and keeps what is wrong of it.
    fn add(&mut self, wrong: Option<String>) -> Result<(), AllocError> {
        self.calls = self.calls.saturating_add(1);
        if let Some(wrong) = wrong {
            self.wrong.push(wrong)?;
        }
        Ok(())
    }
}

/// Tries the calls of a case, each over a host of its own. A case without calls is not as stated.
pub(crate) fn tried<C: Command>(alloc: Global, command: &C, plan: &Plan) -> Result<Found, Unread> {
    let case = case_of(alloc, plan.body.as_str())?;
    tried_calls(alloc, command, &case)
}

fn tried_calls<C: Command>(alloc: Global, command: &C, case: &Case) -> Result<Found, Unread> {
    let mut found = Found {
        calls: 0,
        wrong: Vec::new(alloc),
    };
    if case.calls.is_empty() {
        found.add(Some(String::from_str(alloc, "no call")?))?;
    }
    for call in &case.calls {
        found.add(difference(alloc, command, case, call)?)?;
    }
    Ok(found)
}

/// Does a call, and says what is not as stated.
fn difference<C: Command>(
    alloc: Global,
    command: &C,
    case: &Case,
    call: &Asked,
) -> Result<Option<String>, Unread> {
    let Some(line) = read_line(call.line.as_str()) else {
        return Err(unreadable(&call.line));
    };
    let input = text_of(&case.given, "input").unwrap_or(b"");
    let mut host = MemHost::new(alloc, input)?;
    difference_over(alloc, command, case, call, &line, &mut host)
}

/// The same over a new host with the input, so that no host is dropped where a step breaks off.
fn difference_over<C: Command>(
    alloc: Global,
    command: &C,
    case: &Case,
    call: &Asked,
    line: &Line<'_>,
    host: &mut MemHost,
) -> Result<Option<String>, Unread> {
    add_files(host, &case.given)?;
    if !plan_failures(host, line.failing)? {
        return Err(unreadable(&call.line));
    }
    let status = status_of(alloc, command, line.words, host)?;
    let stated = note(alloc, line.note, &call.line)?;
    Ok(first_wrong(alloc, call, line, stated.as_slice(), status, host)?)
}

/// Gives the host the files of a case.
fn add_files(host: &mut MemHost, given: &[Text]) -> Result<(), AllocError> {
    for text in given {
        if text.key.as_str() != "input" {
            host.add_file(text.key.as_str(), text.bytes.as_slice())?;
        }
    }
    Ok(())
}

/// Calls the command with the words of a line.
fn status_of<C: Command>(
    alloc: Global,
    command: &C,
    line: &str,
    host: &mut MemHost,
) -> Result<u8, AllocError> {
    let words = words(alloc, line)?;
    Ok(command.call(alloc, words.as_slice(), host))
}

/// Lets the host fail as the text says, and gives whether it can be read.
fn plan_failures(host: &mut MemHost, text: &str) -> Result<bool, AllocError> {
    if text.is_empty() {
        return Ok(true);
    }
    for piece in text.split(", ") {
        match read_failing(piece.trim()) {
            Some(failing) => host.fail_at(failing.call, failing.kept)?,
            None => return Ok(false),
        }
    }
    Ok(true)
}

/// What is not as stated, the first of it: the status, the note, the output, the input that is left, or a file.
fn first_wrong(
    alloc: Global,
    call: &Asked,
    line: &Line<'_>,
    note: &[u8],
    status: u8,
    host: &MemHost,
) -> Result<Option<String>, AllocError> {
    if status != line.status {
        return wrong_status(alloc, call, line.status, status, host);
    }
    let prints = text_of(&call.leaves, "prints").unwrap_or(b"");
    let left = text_of(&call.leaves, "left").unwrap_or(host.input_left());
    for (what, came, stated) in [
        ("notes", host.notes(), note),
        ("prints", host.output(), prints),
        ("leaves", host.input_left(), left),
    ] {
        if came != stated {
            return wrong(alloc, call, what, came, stated);
        }
    }
    wrong_file(alloc, call, host)
}

fn wrong_file(alloc: Global, call: &Asked, host: &MemHost) -> Result<Option<String>, AllocError> {
    for text in &call.leaves {
        let name = text.key.as_str();
        if name != "prints" && name != "left" {
            let came = host.file(name).unwrap_or(b"(no file)");
            if came != text.bytes.as_slice() {
                return wrong(alloc, call, name, came, text.bytes.as_slice());
            }
        }
    }
    Ok(None)
}

fn wrong_status(
    alloc: Global,
    call: &Asked,
    stated: u8,
    came: u8,
    host: &MemHost,
) -> Result<Option<String>, AllocError> {
    let notes = shown(alloc, host.notes())?;
    let line = call.line.as_str();
    let text = format!(in alloc; "{line}: status {came}, and not {stated}; notes {notes}")?;
    Ok(Some(text))
}

/// What came in place of what is stated.
fn wrong(
    alloc: Global,
    call: &Asked,
    what: &str,
    came: &[u8],
    stated: &[u8],
) -> Result<Option<String>, AllocError> {
    let came = shown(alloc, came)?;
    let stated = shown(alloc, stated)?;
    let line = call.line.as_str();
    let text = format!(in alloc; "{line}: {what} {came}, and not {stated}")?;
    Ok(Some(text))
}

/// A text in quotes, cut off where it is long.
fn shown(alloc: Global, bytes: &[u8]) -> Result<String, AllocError> {
    let text = String::from_utf8_lossy(alloc, bytes.get(..160).unwrap_or(bytes))?;
    let text = text.as_str();
    let more = if bytes.len() > 160 { ".." } else { "" };
    format!(in alloc; "{text:?}{more}")
}

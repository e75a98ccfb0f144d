use std::alloc::{AllocError, Global};

/// A case as it stands in a file, and its title with the rows of the tables that fill it.
#[derive(Drop)]
pub(crate) struct Plan {
    pub title: String,
    pub body: String,
}

fn is_of_name(letter: char) -> bool {
    letter.is_ascii_alphanumeric() || letter == '_'
}

/// The text with a value in place of each `$name`.
pub(crate) fn filled(
    alloc: Global,
    text: &str,
    name: &str,
    value: &str,
) -> Result<String, AllocError> {
    let mut out = String::new(alloc);
    let mut is_first = true;
    for piece in text.split('$') {
        if is_first {
            out.push_str(piece)?;
        } else {
            push_filled(&mut out, piece, name, value)?;
        }
        is_first = false;
    }
    Ok(out)
}

/// Appends what stood behind a `$`.
fn push_filled(out: &mut String, piece: &str, name: &str, value: &str) -> Result<(), AllocError> {
    match piece.strip_prefix(name) {
        Some(rest) if !rest.starts_with(is_of_name) => {
            out.push_str(value)?;
            out.push_str(rest)
        }
        _ => {
            out.push_str("$")?;
            out.push_str(piece)
        }
    }
}

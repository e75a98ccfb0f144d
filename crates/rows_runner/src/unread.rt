use std::alloc::{AllocError, AllocFailed};

/// Why a case could not be read.
#[derive(Drop)]
pub(crate) enum Unread {
    NoMemory,
    /// This line is none of the format.
    Line(String),
}

impl From<AllocError> for Unread {
    fn from(_error: AllocError) -> Unread {
        Unread::NoMemory
    }
}

impl<T: Drop> From<AllocFailed<T>> for Unread {
    fn from(_error: AllocFailed<T>) -> Unread {
        Unread::NoMemory
    }
}

/// This line is none of the format.
pub(crate) fn unreadable(line: &String) -> Unread {
    match line.clone() {
        Ok(line) => Unread::Line(line),
        Err(_) => Unread::NoMemory,
    }
}

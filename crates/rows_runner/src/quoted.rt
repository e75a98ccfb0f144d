use std::alloc::{AllocError, Global};

/// Where in a line of quoted texts the next byte stands.
#[derive(Clone, Copy)]
enum At {
    Outside,
    Inside,
    Escaped,
    FirstDigit,
    LastDigit(u8),
    Times(usize),
}

/// A byte, or the number of the repetition that it stands in.
#[derive(Clone, Copy, Drop)]
enum Piece {
    Byte(u8),
    Turn,
}

/// Texts that are read, one behind the other.
#[derive(Drop)]
struct Texts {
    alloc: Global,
    whole: Vec<u8>,
    part: Vec<Piece>,
    at: At,
}

fn hex(byte: u8) -> Option<u8> {
    match byte {
        b'0'..=b'9' => Some(byte - b'0'),
        b'a'..=b'f' => Some(byte - b'a' + 10),
        _ => None,
    }
}

/// The byte of two hexadecimal digits, of which the first was read.
fn last_digit(first: u8, byte: u8) -> Option<Piece> {
    let byte = first.checked_mul(16)?.checked_add(hex(byte)?)?;
    Some(Piece::Byte(byte))
}

fn escape(byte: u8) -> Option<Piece> {
    match byte {
        b'n' => Some(Piece::Byte(b'\n')),
        b't' => Some(Piece::Byte(b'\t')),
        b'\\' => Some(Piece::Byte(b'\\')),
        b'"' => Some(Piece::Byte(b'"')),
        b'#' => Some(Piece::Turn),
        _ => None,
    }
}

impl Texts {
    /// Takes the next byte, and says whether it may stand there.
    fn take(&mut self, byte: u8) -> Result<bool, AllocError> {
        match self.at {
            At::Outside => self.take_outside(byte),
            At::Inside => self.take_inside(byte),
            At::Escaped if byte == b'x' => self.go(At::FirstDigit),
            At::Escaped => self.push(escape(byte)),
            At::FirstDigit => match hex(byte) {
                Some(digit) => self.go(At::LastDigit(digit)),
                None => Ok(false),
            },
            At::LastDigit(first) => self.push(last_digit(first, byte)),
            At::Times(times) => self.take_times(times, byte),
        }
    }

    fn go(&mut self, at: At) -> Result<bool, AllocError> {
        self.at = at;
        Ok(true)
    }

    fn push(&mut self, piece: Option<Piece>) -> Result<bool, AllocError> {
        match piece {
            Some(piece) => {
                self.part.push(piece)?;
                self.go(At::Inside)
            }
            None => Ok(false),
        }
    }

    fn take_outside(&mut self, byte: u8) -> Result<bool, AllocError> {
        match byte {
            b' ' => Ok(true),
            b'*' => self.go(At::Times(0)),
            b'"' => {
                self.end_part(1)?;
                self.go(At::Inside)
            }
            _ => Ok(false),
        }
    }

    fn take_inside(&mut self, byte: u8) -> Result<bool, AllocError> {
        match byte {
            b'"' => self.go(At::Outside),
            b'\\' => self.go(At::Escaped),
            _ => self.push(Some(Piece::Byte(byte))),
        }
    }

    fn take_times(&mut self, times: usize, byte: u8) -> Result<bool, AllocError> {
        match byte {
            b' ' => {
                self.end_part(times)?;
                self.go(At::Outside)
            }
            b'0'..=b'9' => {
                let digit = usize::from(byte - b'0');
                self.go(At::Times(times.saturating_mul(10).saturating_add(digit)))
            }
            _ => Ok(false),
        }
    }

    /// Appends the last part so many times.
    fn end_part(&mut self, times: usize) -> Result<(), AllocError> {
        for turn in 0..times {
            for piece in &self.part {
                push_piece(self.alloc, &mut self.whole, *piece, turn)?;
            }
        }
        self.part.clear();
        Ok(())
    }
}

fn push_piece(
    alloc: Global,
    whole: &mut Vec<u8>,
    piece: Piece,
    turn: usize,
) -> Result<(), AllocError> {
    match piece {
        Piece::Byte(byte) => whole.push(byte)?,
        Piece::Turn => {
            let turn = format!(in alloc; "{turn}")?;
            whole.extend_from_slice(turn.as_bytes())?;
        }
    }
    Ok(())
}

/// The bytes of texts in quotes, each of which may have `*N` behind it: so many of it.
pub(crate) fn quoted(alloc: Global, line: &str) -> Result<Option<Vec<u8>>, AllocError> {
    let mut texts = Texts {
        alloc,
        whole: Vec::new(alloc),
        part: Vec::new(alloc),
        at: At::Outside,
    };
    for byte in line.as_bytes() {
        if !texts.take(*byte)? {
            return Ok(None);
        }
    }
    match texts.at {
        At::Outside => texts.end_part(1)?,
        At::Times(times) => texts.end_part(times)?,
        _ => return Ok(None),
    }
    Ok(Some(texts.whole))
}

ghost use Rattle.std.specs.Prelude.{◌≡◌, ◌≤◌, ◌+◌, ◌<◌, ◌++◌, ℕ, List, true, false, length, take, IfOk, OnOk};
ghost use Rattle.std.specs.Io.KnownBytes.{Appends, Consumes, IsAtEnd};

use crate::host::HostErr;
use std::alloc::Global;
use std::io::{ErrorKind, Read, Write};

/// Reads to the end, or the first `limit + 1` bytes, piece by piece, and goes on after an
/// interruption.
pub fn read_beginning<F: Read>(
    alloc: Global,
    file: &mut F,
    limit: usize,
    piece: &mut [u8],
) -> Result<Vec<u8>, HostErr>
    requires { 0 < length piece.old }
    ensures bound { IfOk result (λ bytes. length bytes.items ≤ limit + 1) }
    ensures read { IfOk result (λ bytes. Consumes (F.remaining file.old) (F.remaining file.new) bytes.items) }
    ensures end { IfOk result (λ bytes. length bytes.items ≤ limit → IsAtEnd (F.remaining file.new)) }
{
    let mut bytes = Vec::new(alloc);
    for _ in 0..u64::MAX {
        match read_piece(file, limit, piece, &mut bytes) {
            Ok(true) => {}
            Ok(false) => return Ok(bytes),
            Err(error) => return Err(error),
        }
    }
    Err(HostErr::Failed)
}

/// Reads a piece behind these bytes, and says whether more is to be read.
fn read_piece<F: Read>(
    file: &mut F,
    limit: usize,
    piece: &mut [u8],
    bytes: &mut Vec<u8>,
) -> Result<bool, HostErr>
    requires room { 0 < length piece.old }
    requires within { length bytes.old.items ≤ limit }
    ensures bound { IfOk result (λ more. length bytes.new.items ≤ limit + 1) }
    ensures within { IfOk result (λ more. more ≡ true → length bytes.new.items ≤ limit) }
    ensures read { IfOk result (λ more. (part : List ℕ) × (bytes.new.items ≡ bytes.old.items ++ part) × Consumes (F.remaining file.old) (F.remaining file.new) part) }
    ensures end { IfOk result (λ more. more ≡ false → length bytes.new.items ≤ limit → IsAtEnd (F.remaining file.new)) }
{
    let wanted = (limit - bytes.len()).min(piece.len() - 1) + 1;
    let taken = read_some(file, &mut piece[..wanted])?;
    if bytes.extend_from_slice(&piece[..taken]).is_err() {
        return Err(HostErr::NoMemory);
    }
    Ok(taken > 0 && bytes.len() <= limit)
}

/// Reads one byte, or answers `None` at the end.
pub(crate) fn read_byte<F: Read>(input: &mut F) -> Result<Option<u8>, HostErr> {
    let mut byte = [0u8; 1];
    let taken = read_some(input, &mut byte)?;
    Ok(if taken == 0 { None } else { Some(byte[0]) })
}

/// Writes all the bytes, and goes on after an interruption.
pub fn write_whole<W: Write>(writer: &mut W, bytes: &[u8]) -> Result<(), HostErr>
    ensures { OnOk result (Appends (W.contents writer.old) (W.contents writer.new) bytes.now) }
{
    let mut rest = bytes;
    for _ in 0..u64::MAX {
        if rest.is_empty() {
            return Ok(());
        }
        let taken = write_some(writer, rest)?;
        rest = &rest[taken..];
    }
    Err(HostErr::Failed)
}

fn write_some<W: Write>(writer: &mut W, bytes: &[u8]) -> Result<usize, HostErr>
    ensures bound { IfOk result (λ taken. taken ≤ length bytes.now) }
    ensures bytes { IfOk result (λ taken. Appends (W.contents writer.old) (W.contents writer.new) (take taken bytes.now)) }
    ensures some { IfOk result (λ taken. 0 < taken) }
{
    for _ in 0..u64::MAX {
        match writer.write(bytes) {
            Ok(0) => return Err(HostErr::Failed),
            Ok(taken) => return Ok(taken),
            Err(error) if error.kind() == ErrorKind::Interrupted => {}
            Err(_) => return Err(HostErr::Failed),
        }
    }
    Err(HostErr::Failed)
}

fn read_some<F: Read>(file: &mut F, piece: &mut [u8]) -> Result<usize, HostErr>
    ensures bound { IfOk result (λ taken. taken ≤ length piece.new) }
    ensures bytes { IfOk result (λ taken. Consumes (F.remaining file.old) (F.remaining file.new) (take taken piece.new)) }
    ensures end { IfOk result (λ taken. taken ≡ 0 → 0 < length piece.new → IsAtEnd (F.remaining file.new)) }
{
    for _ in 0..u64::MAX {
        match file.read(piece) {
            Ok(taken) => return Ok(taken),
            Err(error) if error.kind() == ErrorKind::Interrupted => {}
            Err(_) => return Err(HostErr::Failed),
        }
    }
    Err(HostErr::Failed)
}

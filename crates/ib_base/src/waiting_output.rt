ghost use Rattle.std.specs.Prelude.{◌≡◌, ◌++◌, [], true, false, IfOk, OnOk, OnErr};
ghost use Rattle.std.specs.Io.KnownBytes.{Appends, append_known};

use crate::host::HostErr;
use crate::stream::write_whole;
use std::alloc::{AllocError, Global};
use std::io::Write;

/// How many bytes wait at most.
const ROOM: usize = 8192;

/// Output that waits to be written. Its room is found once, so that waiting takes no memory.
#[derive(Drop)]
pub(crate) struct WaitingOutput {
    bytes: Vec<u8>,
}

impl WaitingOutput {
    pub(crate) fn new(alloc: Global) -> Result<WaitingOutput, AllocError>
        ensures { IfOk result (λ waiting. waiting.bytes.items ≡ []) }
    {
        let bytes = Vec::with_capacity(alloc, ROOM)?;
        Ok(WaitingOutput { bytes })
    }

    /// Appends to the output: lets the bytes wait, behind those that do or, where there is no room, once those are
    /// written; more than there is ever room for are written at once.
    pub(crate) fn append<W: Write>(&mut self, writer: &mut W, bytes: &[u8]) -> Result<(), HostErr>
        ensures ok { OnOk result (Appends (append_known (W.contents writer.old) self.old.bytes.items) (append_known (W.contents writer.new) self.new.bytes.items) bytes.now) }
        ensures err { OnErr result (self.new.bytes.items ≡ []) }
    {
        if self.keep(bytes) {
            return Ok(());
        }
        self.write_out(writer)?;
        if self.keep(bytes) {
            return Ok(());
        }
        write_whole(writer, bytes)
    }

    /// Lets the bytes wait where there is room, and says whether there was.
    fn keep(&mut self, bytes: &[u8]) -> bool
        ensures kept { result ≡ true → self.new.bytes.items ≡ self.old.bytes.items ++ bytes.now }
        ensures full { result ≡ false → self.new.bytes.items ≡ self.old.bytes.items }
    {
        let room = self.bytes.capacity().saturating_sub(self.bytes.len());
        bytes.len() <= room && self.bytes.extend_from_slice(bytes).is_ok()
    }

    /// Writes what waits. What cannot be written is given up.
    pub(crate) fn write_out<W: Write>(&mut self, writer: &mut W) -> Result<(), HostErr>
        ensures ok { OnOk result (Appends (W.contents writer.old) (W.contents writer.new) self.old.bytes.items) }
        ensures empty { self.new.bytes.items ≡ [] }
    {
        let outcome = write_whole(writer, self.bytes.as_slice());
        self.bytes.clear();
        outcome
    }
}

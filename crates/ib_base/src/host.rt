ghost use Rattle.std.specs.Prelude.{◌≡◌, ℕ, ◌≤◌, ◌<◌, length, IfOk, OnOk, OnErr, IsErrOf, IsSome};
ghost use Rattle.ib_base.specs.Cause.{HasCause};
ghost use Rattle.ib_base.specs.World.{World, HasFile, LacksFile, BeginsFile, printed, PrintsPart, noted, NotesPart, with_file, SpoilsFile, TakesByte};

use std::alloc::Global;
use thiserror::Error;

/// Why a host did not do what it was asked for.
#[derive(Clone, Copy, PartialEq, Eq, Debug, Error)]
pub enum HostErr {
    /// The system failed, or there is no such file.
    #[error("the system failed, or there is no such file")]
    Failed,
    /// Memory was wanting.
    #[error("there is not enough memory")]
    NoMemory,
}

/// The outside of a command and of a program that it runs: files, an input, an output and notes.
pub trait Host {
    ghost use Rattle.ib_base.specs.World.{World};

    // What the host tells of the outside.
    ghost world: { Self → World };

    // How often a call has failed, up to the last value that the count can have.
    ghost faults: { Self → ℕ };

    // No call fails, but a read of a file that is not there.
    ghost sure: { Self → Type 0 };

    /// The file's content, or its beginning of `limit + 1` bytes where it is longer than `limit`.
    fn read_file(&mut self, alloc: Global, name: &str, limit: usize) -> Result<Vec<u8>, HostErr>
        ensures whole { IfOk result (λ bytes. length bytes.items ≤ limit → HasFile (world self.old) name.now bytes.items) }
        ensures beginning { IfOk result (λ bytes. limit < length bytes.items → BeginsFile (world self.old) name.now limit bytes.items) }
        ensures same_world { world self.new ≡ world self.old }
        ensures cause { HasCause (faults self.old) (faults self.new) result }
        ensures still_sure { sure self.old → sure self.new }
        ensures missing { sure self.old → IsErrOf result HostErr.Failed → LacksFile (world self.old) name.now };

    /// Makes a file, or gives it another content.
    fn write_file(&mut self, name: &str, bytes: &[u8]) -> Result<(), HostErr>
        ensures ok { OnOk result (world self.new ≡ with_file (world self.old) name.now bytes.now) }
        ensures err { OnErr result (SpoilsFile (world self.old) (world self.new) name.now) }
        ensures cause { HasCause (faults self.old) (faults self.new) result }
        ensures still_sure { sure self.old → sure self.new }
        ensures never { sure self.old → IsErrOf result HostErr.Failed → ⊥ };

    /// Takes the next byte of the input, or answers `None` where none is left.
    fn get_byte(&mut self) -> Result<Option<u8>, HostErr>
        ensures ok { IfOk result (λ byte. TakesByte (world self.old) (world self.new) byte) }
        ensures err { OnErr result (world self.new ≡ world self.old) }
        ensures cause { HasCause (faults self.old) (faults self.new) result }
        ensures still_sure { sure self.old → sure self.new }
        ensures never { sure self.old → IsErrOf result HostErr.Failed → ⊥ };

    /// Appends to the output.
    fn put(&mut self, bytes: &[u8]) -> Result<(), HostErr>
        ensures ok { OnOk result (world self.new ≡ printed (world self.old) bytes.now) }
        ensures err { OnErr result (PrintsPart (world self.old) (world self.new) bytes.now) }
        ensures cause { HasCause (faults self.old) (faults self.new) result }
        ensures still_sure { sure self.old → sure self.new }
        ensures never { sure self.old → IsErrOf result HostErr.Failed → ⊥ };

    /// Appends to the notes.
    fn note(&mut self, bytes: &[u8]) -> Result<(), HostErr>
        ensures ok { OnOk result (world self.new ≡ noted (world self.old) bytes.now) }
        ensures err { OnErr result (NotesPart (world self.old) (world self.new) bytes.now) }
        ensures cause { HasCause (faults self.old) (faults self.new) result }
        ensures still_sure { sure self.old → sure self.new }
        ensures never { sure self.old → IsErrOf result HostErr.Failed → ⊥ };

    ghost sure_tells: { (host : Self) → sure host → IsSome (world host).disk };
}

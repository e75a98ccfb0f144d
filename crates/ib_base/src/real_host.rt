ghost use Rattle.std.specs.Prelude.{◌≤◌, ◌+◌, ◌<◌, length, IfOk};

use crate::host::{Host, HostErr};
use crate::stream::{read_beginning, read_byte, write_whole};
use crate::waiting_output::WaitingOutput;
use std::alloc::{AllocError, Global};
use std::io::Input;
use std::rt::Files;
use std::{fs, io};

/// How much of a file is read at once.
const PIECE: usize = 8192;

/// The files, the standard input and the two standard outputs of the process. It tells no content, but the end of the
/// input once it was seen. Its output waits, at most 8,192 bytes of it, and is written before input is read, a note is
/// left or a file is written, and by `flush`, which its owner calls at the end.
#[derive(Drop)]
pub struct RealHost<R: Files + Input + Print + Eprint + Drop> {
    rt: R,
    input: R::Reader,
    ended: bool,
    piece: Box<[u8; PIECE]>,
    waiting: WaitingOutput,
    faults: u64,
}

impl<R: Files + Input + Print + Eprint + Drop> RealHost<R> {
    ghost use Rattle.std.specs.Prelude.{◌≡◌, [], None, IfOk};
    ghost use Rattle.ib_base.specs.Cause.{HasCause};
    ghost use Rattle.ib_base.specs.World.{silent};

    /// A host that has counted no failure, has not seen the end of the input and has no output waiting.
    pub fn new(rt: R, alloc: Global) -> Result<RealHost<R>, AllocError>
        ensures faults { IfOk result (λ host. ⟦<RealHost<R> as Host>⟧.faults host ≡ 0) }
        ensures world { IfOk result (λ host. ⟦<RealHost<R> as Host>⟧.world host ≡ silent None) }
        ensures nothing_waits { IfOk result (λ host. host.waiting.bytes.items ≡ []) }
    {
        let piece = Box::new(alloc, [0; PIECE])?;
        let waiting = WaitingOutput::new(alloc)?;
        let input = rt.reader();
        Ok(RealHost {
            rt,
            input,
            ended: false,
            piece,
            waiting,
            faults: 0,
        })
    }

    /// Writes the output that waits. What cannot be written is given up, and counts as one failure.
    pub fn flush(&mut self) -> Result<(), HostErr>
        ensures cause { HasCause (⟦<RealHost<R> as Host>⟧.faults self.old) (⟦<RealHost<R> as Host>⟧.faults self.new) result }
        ensures same_world { ⟦<RealHost<R> as Host>⟧.world self.new ≡ ⟦<RealHost<R> as Host>⟧.world self.old }
        ensures same_input { self.new.ended ≡ self.old.ended }
        ensures nothing_waits { self.new.waiting.bytes.items ≡ [] }
    {
        let outcome = self.waiting.write_out(&mut io::writer(&self.rt));
        self.counted(outcome)
    }

    /// Counts a call where it failed, and hands its result on.
    fn counted<T>(&mut self, outcome: Result<T, HostErr>) -> Result<T, HostErr>
        ensures same { result ≡ outcome }
        ensures cause { HasCause self.old.faults self.new.faults result }
        ensures same_input { self.new.ended ≡ self.old.ended }
        ensures same_waiting { self.new.waiting ≡ self.old.waiting }
    {
        if let Err(HostErr::Failed) = &outcome {
            self.faults = self.faults.saturating_add(1);
        }
        outcome
    }
}

impl<R: Files + Input + Print + Eprint + Drop> Host for RealHost<R> {
    ghost use Rattle.ib_base.specs.World.{silent, end_seen};

    ghost world = { λ host. silent (end_seen host.ended) };

    ghost faults = { λ host. host.faults };

    ghost sure = { λ host. ⊥ };

    ghost sure_tells = { λ host never. absurd never };

    fn read_file(&mut self, alloc: Global, name: &str, limit: usize) -> Result<Vec<u8>, HostErr> {
        let outcome = read_named(alloc, &self.rt, name, limit, &mut self.piece[..]);
        self.counted(outcome)
    }

    fn write_file(&mut self, name: &str, bytes: &[u8]) -> Result<(), HostErr> {
        self.flush()?;
        let outcome = match fs::create(&self.rt, name) {
            Ok(mut file) => write_whole(&mut file, bytes),
            Err(_) => Err(HostErr::Failed),
        };
        self.counted(outcome)
    }

    fn get_byte(&mut self) -> Result<Option<u8>, HostErr> {
        if self.ended {
            return Ok(None);
        }
        self.flush()?;
        let outcome = read_byte(&mut self.input);
        if let Ok(None) = &outcome {
            self.ended = true;
        }
        self.counted(outcome)
    }

    fn put(&mut self, bytes: &[u8]) -> Result<(), HostErr> {
        let outcome = self.waiting.append(&mut io::writer(&self.rt), bytes);
        self.counted(outcome)
    }

    fn note(&mut self, bytes: &[u8]) -> Result<(), HostErr> {
        self.flush()?;
        let outcome = match str::from_utf8(bytes) {
            Ok(text) => print_note(&self.rt, text),
            Err(_) => Err(HostErr::Failed),
        };
        self.counted(outcome)
    }
}

fn read_named<R: Files>(
    alloc: Global,
    rt: &R,
    name: &str,
    limit: usize,
    piece: &mut [u8],
) -> Result<Vec<u8>, HostErr>
    requires { 0 < length piece.old }
    ensures { IfOk result (λ bytes. length bytes.items ≤ limit + 1) }
{
    match fs::open(rt, name) {
        Ok(mut file) => read_beginning(alloc, &mut file, limit, piece),
        Err(_) => Err(HostErr::Failed),
    }
}

fn print_note(rt: &impl Eprint, text: &str) -> Result<(), HostErr> {
    match rt.eprint(text) {
        Ok(()) => Ok(()),
        Err(_) => Err(HostErr::Failed),
    }
}

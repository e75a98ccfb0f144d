ghost use Rattle.std.specs.Prelude.{◌≡◌, ◌≤◌, ◌<◌, ◌++◌, [], length, take, IfSome, IfOk, OnOk, OnErr, IsErr, IsErrOf};
ghost use Rattle.std.specs.Option.{option_map};
ghost use Rattle.std.specs.FinMap as map;
ghost use Rattle.ib_base.specs.Cause.{HasCause};
ghost use Rattle.ib_base.specs.World.{HasFile, LacksFile, BeginsFile, Begins, printed, PrintsPart, noted, NotesPart, with_file, SpoilsFile, TakesByte};
ghost use Rattle.ib_base.specs.FaultPlan.{next_kept, with_listed};

use crate::fault_plan::FaultPlan;
use crate::file_table::FileTable;
use crate::host::{Host, HostErr};
use crate::input_left::InputLeft;
use crate::mem_parts::{append, beginning};
use crate::name_log::NameLog;
use crate::text::Text;
use std::alloc::{AllocError, Global};

/// A host that keeps everything in memory, tells all of it, and fails where it was told to.
#[derive(Drop)]
pub struct MemHost {
    alloc: Global,
    files: FileTable,
    failed: NameLog,
    input: InputLeft,
    output: Text,
    notes: Text,
    plan: FaultPlan,
}

impl MemHost {
    ghost use Rattle.ib_base.specs.MemHost.{IsFresh, world_of, files_of, input_of, output_of, notes_of, plan_of, fault_count};

    /// A host with this input, without files, and with nothing written.
    pub fn new(alloc: Global, input: &[u8]) -> Result<MemHost, AllocError>
        ensures { IfOk result (λ host. IsFresh host input.now) }
    {
        let input = InputLeft::new(alloc, input)?;
        Ok(MemHost {
            alloc,
            files: FileTable::new(alloc),
            failed: NameLog::new(),
            input,
            output: Text::new(alloc),
            notes: Text::new(alloc),
            plan: FaultPlan::new(alloc),
        })
    }

    /// Makes a file, or gives it another content.
    pub fn add_file(&mut self, name: &str, bytes: &[u8]) -> Result<(), AllocError>
        ensures ok { OnOk result (world_of self.new ≡ with_file (world_of self.old) name.now bytes.now) }
        ensures err { OnErr result (world_of self.new ≡ world_of self.old) }
        ensures same_plan { plan_of self.new ≡ plan_of self.old }
    {
        self.files.set(self.alloc, name.as_bytes(), bytes)
    }

    /// Lists a call that is to fail; a `put` or `note` then first writes `kept` bytes.
    /// The calls of the five methods are numbered together from 1.
    pub fn fail_at(&mut self, call: u64, kept: usize) -> Result<(), AllocError>
        ensures ok { OnOk result (plan_of self.new ≡ with_listed (plan_of self.old) call kept) }
        ensures err { OnErr result (plan_of self.new ≡ plan_of self.old) }
        ensures same_world { world_of self.new ≡ world_of self.old }
    {
        self.plan.list(call, kept)
    }

    /// The content of a file, where there is one of this name.
    pub fn file(&self, name: &str) -> Option<&[u8]>
        ensures { option_map (λ content. content.now) result ≡ map.get (files_of self.now) name.now }
    {
        self.files.get(name.as_bytes())
    }

    pub fn input_left(&self) -> &[u8]
        ensures { result.now ≡ input_of self.now }
    {
        self.input.as_bytes()
    }

    pub fn output(&self) -> &[u8]
        ensures { result.now ≡ output_of self.now }
    {
        self.output.list()
    }

    pub fn notes(&self) -> &[u8]
        ensures { result.now ≡ notes_of self.now }
    {
        self.notes.list()
    }

    /// How many calls failed, up to the last value of the type.
    pub fn faults(&self) -> u64
        ensures { result ≡ fault_count self.now }
    {
        self.plan.faults()
    }
}

impl Host for MemHost {
    ghost use Rattle.std.specs.Prelude.{◌≡◌, ◌≤◌, ◌<◌, [], None, Err, length, take, IfSome, IfOk, OnOk, OnErr, IsOk, IsErr, IsErrOf, IsSome, refl};
    ghost use Rattle.std.specs.FinMap as map;
    ghost use Rattle.ib_base.specs.Cause.{HasCause};
    ghost use Rattle.ib_base.specs.World.{HasFile, LacksFile, BeginsFile, printed, PrintsPart, noted, NotesPart, with_file, SpoilsFile, TakesByte};
    ghost use Rattle.ib_base.specs.FaultPlan.{next_kept, after_call};
    ghost use Rattle.ib_base.specs.MemHost.{world_of, files_of, plan_of, fault_count, listing_of};

    ghost world = { world_of };

    ghost faults = { fault_count };

    ghost sure = { λ host. listing_of host ≡ [] };

    ghost sure_tells = { λ host h. refl };

    fn read_file(&mut self, alloc: Global, name: &str, limit: usize) -> Result<Vec<u8>, HostErr>
        ensures whole { IfOk result (λ bytes. length bytes.items ≤ limit → HasFile (world_of self.old) name.now bytes.items) }
        ensures beginning { IfOk result (λ bytes. limit < length bytes.items → BeginsFile (world_of self.old) name.now limit bytes.items) }
        ensures same_world { world_of self.new ≡ world_of self.old }
        ensures cause { HasCause (fault_count self.old) (fault_count self.new) result }
        ensures still_sure { listing_of self.old ≡ [] → listing_of self.new ≡ [] }
        ensures missing { listing_of self.old ≡ [] → IsErrOf result HostErr.Failed → LacksFile (world_of self.old) name.now }
        ensures plan { plan_of self.new ≡ after_call result (plan_of self.old) }
        ensures listed { IsSome (next_kept (plan_of self.old)) → result ≡ Err HostErr.Failed }
        ensures absent { map.get (files_of self.old) name.now ≡ None → result ≡ Err HostErr.Failed }
        ensures present { next_kept (plan_of self.old) ≡ None → IsSome (map.get (files_of self.old) name.now) → IsErrOf result HostErr.Failed → ⊥ }
    {
        if self.plan.begin().is_some() {
            self.plan.raise();
            return Err(HostErr::Failed);
        }
        match self.files.get(name.as_bytes()) {
            None => {
                self.plan.raise();
                Err(HostErr::Failed)
            }
            Some(content) => beginning(alloc, content, limit),
        }
    }

    fn write_file(&mut self, name: &str, bytes: &[u8]) -> Result<(), HostErr>
        ensures ok { OnOk result (world_of self.new ≡ with_file (world_of self.old) name.now bytes.now) }
        ensures err { OnErr result (SpoilsFile (world_of self.old) (world_of self.new) name.now) }
        ensures cause { HasCause (fault_count self.old) (fault_count self.new) result }
        ensures still_sure { listing_of self.old ≡ [] → listing_of self.new ≡ [] }
        ensures never { listing_of self.old ≡ [] → IsErrOf result HostErr.Failed → ⊥ }
        ensures plan { plan_of self.new ≡ after_call result (plan_of self.old) }
        ensures listed { IsSome (next_kept (plan_of self.old)) → result ≡ Err HostErr.Failed }
        ensures unlisted { next_kept (plan_of self.old) ≡ None → IsErrOf result HostErr.Failed → ⊥ }
    {
        if self.plan.begin().is_some() {
            self.plan.raise();
            self.failed.push(name.as_bytes());
            return Err(HostErr::Failed);
        }
        match self.files.set(self.alloc, name.as_bytes(), bytes) {
            Ok(()) => Ok(()),
            Err(_) => {
                self.failed.push(name.as_bytes());
                Err(HostErr::NoMemory)
            }
        }
    }

    fn get_byte(&mut self) -> Result<Option<u8>, HostErr>
        ensures ok { IfOk result (λ byte. TakesByte (world_of self.old) (world_of self.new) byte) }
        ensures err { OnErr result (world_of self.new ≡ world_of self.old) }
        ensures cause { HasCause (fault_count self.old) (fault_count self.new) result }
        ensures still_sure { listing_of self.old ≡ [] → listing_of self.new ≡ [] }
        ensures never { listing_of self.old ≡ [] → IsErrOf result HostErr.Failed → ⊥ }
        ensures plan { plan_of self.new ≡ after_call result (plan_of self.old) }
        ensures listed { IsSome (next_kept (plan_of self.old)) → result ≡ Err HostErr.Failed }
        ensures unlisted { next_kept (plan_of self.old) ≡ None → IsOk result }
    {
        if self.plan.begin().is_some() {
            self.plan.raise();
            return Err(HostErr::Failed);
        }
        Ok(self.input.take())
    }

    fn put(&mut self, bytes: &[u8]) -> Result<(), HostErr>
        ensures ok { OnOk result (world_of self.new ≡ printed (world_of self.old) bytes.now) }
        ensures err { OnErr result (PrintsPart (world_of self.old) (world_of self.new) bytes.now) }
        ensures cause { HasCause (fault_count self.old) (fault_count self.new) result }
        ensures still_sure { listing_of self.old ≡ [] → listing_of self.new ≡ [] }
        ensures never { listing_of self.old ≡ [] → IsErrOf result HostErr.Failed → ⊥ }
        ensures plan { plan_of self.new ≡ after_call result (plan_of self.old) }
        ensures listed { IfSome (next_kept (plan_of self.old)) (λ kept. IsErr result) }
        ensures kept { IfSome (next_kept (plan_of self.old)) (λ kept. IsErrOf result HostErr.Failed → world_of self.new ≡ printed (world_of self.old) (take kept bytes.now)) }
        ensures unlisted { next_kept (plan_of self.old) ≡ None → IsErrOf result HostErr.Failed → ⊥ }
    {
        append(&mut self.plan, &mut self.output, bytes)
    }

    fn note(&mut self, bytes: &[u8]) -> Result<(), HostErr>
        ensures ok { OnOk result (world_of self.new ≡ noted (world_of self.old) bytes.now) }
        ensures err { OnErr result (NotesPart (world_of self.old) (world_of self.new) bytes.now) }
        ensures cause { HasCause (fault_count self.old) (fault_count self.new) result }
        ensures still_sure { listing_of self.old ≡ [] → listing_of self.new ≡ [] }
        ensures never { listing_of self.old ≡ [] → IsErrOf result HostErr.Failed → ⊥ }
        ensures plan { plan_of self.new ≡ after_call result (plan_of self.old) }
        ensures listed { IfSome (next_kept (plan_of self.old)) (λ kept. IsErr result) }
        ensures kept { IfSome (next_kept (plan_of self.old)) (λ kept. IsErrOf result HostErr.Failed → world_of self.new ≡ noted (world_of self.old) (take kept bytes.now)) }
        ensures unlisted { next_kept (plan_of self.old) ≡ None → IsErrOf result HostErr.Failed → ⊥ }
    {
        append(&mut self.plan, &mut self.notes, bytes)
    }
}

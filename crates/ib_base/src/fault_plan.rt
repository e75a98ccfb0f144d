ghost use Rattle.std.specs.Prelude.{◌≡◌, ◌≤◌, OnOk, OnErr};
ghost use Rattle.ib_base.specs.FaultPlan.{kept_of, new_plan, next_kept, numbered, raised, with_listed};

use sqlite_items::Items;
use std::alloc::{AllocError, Global};

/// A call that fails, and how much it writes first.
#[derive(Clone, Copy)]
pub struct Listed {
    pub call: u64,
    pub kept: usize,
}

/// Numbers the calls of a host, says which of them fail, and counts those that failed.
#[derive(Drop)]
pub(crate) struct FaultPlan {
    calls: u64,
    faults: u64,
    listed: Items<Listed>,
}

impl FaultPlan {
    pub(crate) fn new(alloc: Global) -> FaultPlan
        ensures { result ≡ new_plan }
    {
        FaultPlan {
            calls: 0,
            faults: 0,
            listed: Items::new(alloc),
        }
    }

    /// How often a call failed, up to the last value of the type.
    pub(crate) fn faults(&self) -> u64
        ensures { result ≡ self.now.faults }
    {
        self.faults
    }

    /// Lists a call that is to fail.
    pub(crate) fn list(&mut self, call: u64, kept: usize) -> Result<(), AllocError>
        ensures ok { OnOk result (self.new ≡ with_listed self.old call kept) }
        ensures err { OnErr result (self.new ≡ self.old) }
    {
        self.listed.push(Listed { call, kept })
    }

    /// Numbers a call, and answers how much it is to write before it fails where it is listed.
    pub(crate) fn begin(&mut self) -> Option<usize>
        ensures listed { result ≡ next_kept self.old }
        ensures counted { self.new ≡ numbered self.old }
    {
        self.calls = self.calls.saturating_add(1);
        kept_at(self.listed.as_slice(), self.calls)
    }

    /// Counts a failure.
    pub(crate) fn raise(&mut self)
        ensures counted { self.new ≡ raised self.old }
        ensures later { self.old.faults ≤ self.new.faults }
    {
        self.faults = self.faults.saturating_add(1);
    }
}

fn kept_at(listed: &[Listed], call: u64) -> Option<usize>
    ensures { result ≡ kept_of listed.now call }
{
    for listing in listed {
        if listing.call == call {
            return Some(listing.kept);
        }
    }
    None
}

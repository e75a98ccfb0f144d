use crate::edges::{Edge, count_in};
use crate::matching::are_of;
use crate::program::TacProgram;
use sqlite_items::Items;
use std::alloc::{AllocError, Global};
use std::marker::Model;

/// How often a function was entered, and its edges that were taken.
#[derive(Drop)]
pub struct FuncCounts {
    pub entries: u64,
    pub edges: Items<Edge>,
}

/// The counts of a program's functions, by number.
#[derive(Drop)]
pub struct Counts {
    funcs: Items<FuncCounts>,
}

impl Model for Counts {
    ghost use Rattle.std.specs.Prelude.{List};
    ghost use Rattle.tac_core.specs.declared.counts.FuncCounts.{FuncCounts};

    ghost Value = { List FuncCounts };

    ghost use Rattle.std.specs.List.{All};
    ghost use Rattle.tac_core.specs.Counts.{AreCounts};

    ghost view = { λ counts. counts.funcs };

    ghost invariant = { λ counts. All AreCounts counts.funcs };
}

impl Counts {
    ghost use Rattle.std.specs.Prelude.{◌≡◌, ◌↔◌, IsTrue, IfOk, map, slice_get};
    ghost use Rattle.std.specs.List.{All};
    ghost use Rattle.tac_core.specs.Counts.{AreCounts, AreOf, edge_count, edges_of, entries_of, no_counts};

    pub fn keep(funcs: Items<FuncCounts>) -> Counts
        requires { All AreCounts funcs }
        ensures { result ≡ funcs }
    {
        Counts { funcs }
    }

    /// The counts by function.
    pub fn funcs(&self) -> &[FuncCounts]
        ensures value { result.now ≡ self.now }
        ensures kept { All AreCounts self.now }
    {
        self.funcs.as_slice()
    }

    /// The counts of a run that has done nothing.
    pub fn zero(alloc: Global, tac: &TacProgram) -> Result<Counts, AllocError>
        ensures { IfOk result (λ counts. counts ≡ map no_counts tac.now.funcs) }
    {
        let mut funcs = Items::new(alloc);
        for _func in tac.funcs() {
            let edges = Items::new(alloc);
            funcs.push(FuncCounts { entries: 0, edges })?;
        }
        Ok(Counts::keep(funcs))
    }

    /// How often an edge was taken; 0 where there is no such edge.
    pub fn edge(&self, func: u32, from: u32, to: u32) -> u64
        ensures { result ≡ edge_count from to (edges_of (slice_get self.now func)) }
    {
        match sqlite_items::at(self.funcs(), func as usize) {
            None => 0,
            Some(counts) => count_in(counts.edges.as_slice(), from, to),
        }
    }

    /// How often a function was entered; 0 where there is no such function.
    pub fn entries(&self, func: u32) -> u64
        ensures { result ≡ entries_of (slice_get self.now func) }
    {
        match sqlite_items::at(self.funcs(), func as usize) {
            None => 0,
            Some(counts) => counts.entries,
        }
    }

    /// Whether these can be counts of the program: of its functions, and of edges that are there.
    pub fn matches(&self, tac: &TacProgram) -> bool
        ensures { IsTrue result ↔ AreOf self.now tac.now }
    {
        are_of(self.funcs(), tac.funcs())
    }
}

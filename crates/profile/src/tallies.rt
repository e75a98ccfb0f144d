ghost use Rattle.std.specs.Prelude.{◌≡◌, ◌+◌, ◌<◌, ◌++◌, length, map, filter, slice_get, IfOk, IfSome, OnOk};
ghost use Rattle.std.specs.List.{All};
ghost use Rattle.tac_core.specs.Counts.{IsCount, Rise};
ghost use Rattle.tac_core.specs.Rules.{IsGoodFunc, IsValid};
ghost use Rattle.profile.specs.Counting.{held};
ghost use Rattle.profile.specs.Tallies.{AreTallies, targets, untaken, edges_from, no_tallies, raised, is_edge, crossed_edge, crossed_func, entered_func, with_at, was_taken, taken_of};

use sqlite_items::Items;
use std::alloc::{AllocError, Global};
use std::marker::Model;
use tac_core::{Counts, Edge, End, FuncCounts, TacFunc, TacProgram, find_edge, number_at};

/// The last value of a count.
const MOST: u64 = 9_223_372_036_854_775_807;

/// How often each function of a program was entered and each of its edges was taken, by function.
#[derive(Drop)]
pub(crate) struct Tallies {
    funcs: Vec<FuncCounts>,
}

impl Model for Tallies {
    ghost use Rattle.std.specs.Prelude.{List};
    ghost use Rattle.std.specs.List.{All};
    ghost use Rattle.tac_core.specs.declared.counts.FuncCounts.{FuncCounts};
    ghost use Rattle.profile.specs.Tallies.{AreTallies};

    ghost Value = { List FuncCounts };

    ghost view = { λ tallies. tallies.funcs.items };

    ghost invariant = { λ tallies. All AreTallies tallies.funcs.items };
}

fn one_more(count: u64) -> u64
    ensures { result ≡ held (count + 1) }
{
    if count < MOST { count + 1 } else { MOST }
}

/// The count of the edge that stands there, and one more.
fn once_more(edges: &[Edge], at: usize) -> u64
    requires { at < length edges.now }
    ensures { IfSome (slice_get edges.now at) (λ edge. result ≡ held (edge.count + 1)) }
{
    one_more(edges[at].count)
}

fn untaken(from: u32, to: u32) -> Edge
    ensures { result ≡ untaken from to }
{
    Edge { from, to, count: 0 }
}

/// Appends the edges of a block's end.
fn push_edges(edges: &mut Items<Edge>, from: u32, end: &End) -> Result<(), AllocError>
    ensures { OnOk result (edges.new ≡ edges.old ++ map (untaken from) (targets end.now)) }
{
    match end {
        End::Jump(to) => edges.push(untaken(from, *to)),
        End::Branch { yes, no, .. } => {
            let (first, second) = if yes < no { (*yes, *no) } else { (*no, *yes) };
            edges.push(untaken(from, first))?;
            edges.push(untaken(from, second))
        }
        End::Call { next, .. } => edges.push(untaken(from, *next)),
        End::Ret(_) => Ok(()),
    }
}

/// All edges of a function.
fn all_edges(alloc: Global, func: &TacFunc) -> Result<Items<Edge>, AllocError>
    ensures { IfOk result (λ edges. edges ≡ edges_from 0 func.now.blocks) }
{
    let mut edges = Items::new(alloc);
    for (i, block) in func.blocks.as_slice().iter().enumerate() {
        let from = number_at(i)?;
        push_edges(&mut edges, from, &block.end)?;
    }
    Ok(edges)
}

/// Counts an edge once more.
fn cross_in(edges: &mut Items<Edge>, from: u32, to: u32)
    requires { Rise edges.old }
    ensures { edges.new ≡ map (crossed_edge from to) edges.old }
{
    if let Some(at) = find_edge(edges.as_slice(), from, to) {
        let count = once_more(edges.as_slice(), at);
        edges.set(at, Edge { from, to, count });
    }
}

/// The edges that were taken.
fn taken(alloc: Global, edges: &[Edge]) -> Result<Items<Edge>, AllocError>
    ensures { IfOk result (λ taken. taken ≡ filter was_taken edges.now) }
{
    let mut taken = Items::new(alloc);
    for edge in edges {
        if 0 < edge.count {
            taken.push(*edge)?;
        }
    }
    Ok(taken)
}

impl Tallies {
    /// Nothing was entered or taken.
    pub(crate) fn new(alloc: Global, tac: &TacProgram) -> Result<Tallies, AllocError>
        ensures { IfOk result (λ tallies. tallies ≡ map no_tallies tac.now.funcs) }
    {
        let mut funcs = Vec::new(alloc);
        for func in tac.funcs() {
            let edges = all_edges(alloc, func)?;
            funcs.push(FuncCounts { entries: 0, edges })?;
        }
        Ok(Tallies { funcs })
    }

    /// Counts an edge of a function once more.
    pub(crate) fn cross(&mut self, func: u32, from: u32, to: u32)
        requires { func < length self.old }
        ensures { self.new ≡ with_at (crossed_func from to) func self.old }
    {
        cross_in(&mut self.funcs[func as usize].edges, from, to);
    }

    /// Counts an entry of a function once more.
    pub(crate) fn enter(&mut self, func: u32)
        requires { func < length self.old }
        ensures { self.new ≡ with_at entered_func func self.old }
    {
        let tally = &mut self.funcs[func as usize];
        tally.entries = one_more(tally.entries);
    }

    /// The counts of what was entered and taken.
    pub(crate) fn counts(&self, alloc: Global) -> Result<Counts, AllocError>
        ensures counts { IfOk result (λ counts. counts ≡ map taken_of self.now) }
        ensures kept { All AreTallies self.now }
    {
        let mut funcs = Items::new(alloc);
        for tally in &self.funcs {
            let edges = taken(alloc, tally.edges.as_slice())?;
            funcs.push(FuncCounts {
                entries: tally.entries,
                edges,
            })?;
        }
        Ok(Counts::keep(funcs))
    }
}

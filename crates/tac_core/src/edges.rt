ghost use Rattle.std.specs.Prelude.{◌≡◌, true, false, length, ◌↔◌, IsTrue, IsSomeAnd, MatchOption, slice_get};
ghost use Rattle.std.specs.Option.{option_copied};
ghost use Rattle.std.specs.List.{All};
ghost use Rattle.std.specs.List.Sorted.{IsPartitionedBy, IsPartitionPoint};
ghost use Rattle.tac_core.specs.Counts.{is_before, Rise, edge_count, count_at, is_edge, IsTargetOf, HasEdge, HasEdges};

use crate::code::{End, TacFunc};

/// An edge from a block to a next one, by their labels, and how often it was taken.
#[derive(Clone, Copy)]
pub struct Edge {
    pub from: u32,
    pub to: u32,
    pub count: u64,
}

fn comes_before(edge: &Edge, from: u32, to: u32) -> bool
    ensures { result ≡ is_before edge.now.from edge.now.to from to }
{
    edge.from < from || (edge.from == from && edge.to < to)
}

/// Where the edges end that come before this one.
fn place_of(edges: &[Edge], from: u32, to: u32) -> usize
    requires { IsPartitionedBy (λ e. is_before e.from e.to from to) edges.now }
    ensures { IsPartitionPoint (λ e. is_before e.from e.to from to ≡ true) (λ e. is_before e.from e.to from to ≡ false) edges.now result }
{
    edges.partition_point(|edge| comes_before(edge, from, to))
}

fn is_edge(edge: &Edge, from: u32, to: u32) -> bool
    ensures { result ≡ is_edge from to edge.now }
{
    edge.from == from && edge.to == to
}

/// Where an edge stands among edges that rise.
pub fn find_edge(edges: &[Edge], from: u32, to: u32) -> Option<usize>
    requires { Rise edges.now }
    ensures { MatchOption result (All (λ e. is_edge from to e ≡ false) edges.now) (λ at. IsSomeAnd (slice_get edges.now at) (λ e. is_edge from to e ≡ true)) }
{
    let at = place_of(edges, from, to);
    match sqlite_items::at(edges, at) {
        None => None,
        Some(edge) => {
            if is_edge(edge, from, to) {
                Some(at)
            } else {
                None
            }
        }
    }
}

fn count_of(edge: Option<&Edge>, from: u32, to: u32) -> u64
    ensures { result ≡ count_at from to (option_copied edge.entry) }
{
    match edge {
        None => 0,
        Some(edge) => {
            if edge.from == from && edge.to == to {
                edge.count
            } else {
                0
            }
        }
    }
}

/// How often an edge was taken.
pub fn count_in(edges: &[Edge], from: u32, to: u32) -> u64
    requires { Rise edges.now }
    ensures { result ≡ edge_count from to edges.now }
{
    let at = place_of(edges, from, to);
    count_of(sqlite_items::at(edges, at), from, to)
}

fn is_target(end: &End, label: u32) -> bool
    ensures { IsTrue result ↔ IsTargetOf end.now label }
{
    match end {
        End::Jump(next) => label == *next,
        End::Branch { yes, no, .. } => label == *yes || label == *no,
        End::Call { next, .. } => label == *next,
        End::Ret(_) => false,
    }
}

/// Whether the function has an edge from a block to another.
pub fn has_edge(func: &TacFunc, from: u32, to: u32) -> bool
    ensures { IsTrue result ↔ HasEdge func.now from to }
{
    match sqlite_items::at(func.blocks.as_slice(), from as usize) {
        None => false,
        Some(block) => is_target(&block.end, to),
    }
}

/// Whether the function has all these edges.
pub fn has_edges(func: &TacFunc, edges: &[Edge]) -> bool
    ensures { IsTrue result ↔ HasEdges func.now edges.now }
{
    edges.iter().all(|edge| has_edge(func, edge.from, edge.to))
}

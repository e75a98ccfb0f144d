ghost use Rattle.std.specs.Prelude.{◌≡◌, ◌==◌, ◌<◌, ◌≤◌, ◌+◌, ◌^◌, ◌∷◌, [], suc, ℕ, List, Some, None, length, MatchOption, MatchResult, IfOk, IfErr};
ghost use Rattle.std.specs.Bool.{MatchBool};
ghost use Rattle.std.specs.List.{All};
ghost use Rattle.tac_core.specs.declared.code.TacFunc.{TacFunc};
ghost use Rattle.tac_core.specs.declared.counts.FuncCounts.{FuncCounts};
ghost use Rattle.profile_text.specs.ProfileText.{IsProfile, Refuses};
ghost use Rattle.profile_text.specs.declared.line.Line.TheVariants as line;
ghost use Rattle.profile_text.specs.Matching.{mismatch_from, mismatch_at, is_func, lines_in, behind, edges_in, counts_in};
ghost use Rattle.profile_text.specs.Reading.{label_of, edge_there, ReadsEdges, ReadsLine, ReadsFunc, Misreads};

use crate::error::ProfErr;
use crate::grammar::malformed_at;
use crate::line::{Line, next_line};
use crate::name::Name;
use crate::number::Number;
use sqlite_items::Items;
use std::alloc::Global;
use tac_core::{Counts, Edge, FuncCounts, TacFunc, TacProgram, has_edge};

/// What is left of a file, and the number of its first line.
#[derive(Drop)]
pub struct Lines<'a> {
    pub left: &'a [u8],
    pub number: u32,
}

fn label_of(number: &Number) -> Option<u32>
    ensures { result ≡ label_of number.now }
{
    match number.value() {
        Some(value) if value <= 4_294_967_295 => Some(value as u32),
        _ => None,
    }
}

fn edge_there(func: &TacFunc, from: &Number, to: &Number, count: u64) -> Option<Edge>
    ensures { result ≡ edge_there func.now from.now to.now count }
{
    let from = label_of(from)?;
    let to = label_of(to)?;
    if has_edge(func, from, to) {
        Some(Edge { from, to, count })
    } else {
        None
    }
}

/// An edge's line at the front: its numbers, and what stands behind it.
fn next_edge(bytes: &[u8]) -> Option<(Number, Number, u64, &[u8])>
    ensures { MatchOption result (edges_in (lines_in bytes.now) ≡ []) (λ p. (lines_in bytes.now ≡ line.Edge p.0 p.1 p.2 ∷ lines_in p.3.now) × (length p.3.now < length bytes.now)) }
{
    let (line, rest) = next_line(bytes)?;
    match line {
        Line::Edge { from, to, count } => Some((from, to, count, rest)),
        Line::Header | Line::Func { .. } | Line::End | Line::Other => None,
    }
}

fn read_edges(alloc: Global, func: &TacFunc, lines: &mut Lines) -> Result<Items<Edge>, ProfErr>
    requires { lines.old.number + length lines.old.left.now ≤ 33554434 }
    ensures read { IfOk result (λ edges. ReadsEdges func.now lines.old.number lines.new.number (lines_in lines.old.left.now) (lines_in lines.new.left.now) edges) }
    ensures all { IfOk result (λ edges. edges_in (lines_in lines.new.left.now) ≡ []) }
    ensures err { IfErr result (Misreads (λ fs. mismatch_from lines.old.number (Some func.now) fs (lines_in lines.old.left.now))) }
    ensures room { lines.new.number + length lines.new.left.now ≤ 33554434 }
{
    let mut edges = Items::new(alloc);
    'edges: while let Some((from, to, count, rest)) = next_edge(lines.left) {
        match edge_there(func, &from, &to, count) {
            Some(edge) => edges.push(edge)?,
            None => return Err(ProfErr::Mismatch(lines.number)),
        }
        lines.left = rest;
        lines.number += 1;
    }
    Ok(edges)
}

/// Whether a line names the function, with the number of its blocks.
fn is_func(func: &TacFunc, name: &Name, blocks: &Number) -> bool
    ensures value { result ≡ is_func func.now name.now blocks.now }
    ensures blocks { length func.now.blocks < 2 ^ 64 }
{
    let count = func.blocks.len();
    name.bytes() == func.name.list() && blocks.is(count)
}

/// The function's line at the front: its entries, and what stands behind it.
fn next_func<'a>(func: &TacFunc, bytes: &'a [u8]) -> Option<(u64, &'a [u8])>
    ensures { MatchOption result ((n : ℕ) (fs : List TacFunc) → mismatch_from n None (func.now ∷ fs) (lines_in bytes.now) ≡ Some n) (λ p. ReadsLine func.now p.0 (lines_in bytes.now) (lines_in p.1.now) × (length p.1.now < length bytes.now) × (length func.now.blocks < 2 ^ 64)) }
{
    let (line, rest) = next_line(bytes)?;
    match line {
        Line::Func {
            name,
            blocks,
            entries,
        } => {
            if is_func(func, &name, &blocks) {
                Some((entries, rest))
            } else {
                None
            }
        }
        Line::Header | Line::Edge { .. } | Line::End | Line::Other => None,
    }
}

fn read_func(alloc: Global, func: &TacFunc, lines: &mut Lines) -> Result<FuncCounts, ProfErr>
    requires { lines.old.number + length lines.old.left.now ≤ 33554434 }
    ensures read { IfOk result (λ c. ReadsFunc func.now lines.old.number lines.new.number (lines_in lines.old.left.now) (lines_in lines.new.left.now) c) }
    ensures blocks { IfOk result (λ c. length func.now.blocks < 2 ^ 64) }
    ensures err { IfErr result (Misreads (λ fs. mismatch_from lines.old.number None (func.now ∷ fs) (lines_in lines.old.left.now))) }
    ensures room { lines.new.number + length lines.new.left.now ≤ 33554434 }
{
    let Some((entries, rest)) = next_func(func, lines.left) else {
        return Err(ProfErr::Mismatch(lines.number));
    };
    lines.left = rest;
    lines.number += 1;
    let edges = read_edges(alloc, func, lines)?;
    Ok(FuncCounts { entries, edges })
}

fn is_end(bytes: &[u8]) -> bool
    ensures { MatchBool result ((counts_in (lines_in bytes.now) ≡ []) × ((n : ℕ) → mismatch_from n None [] (lines_in bytes.now) ≡ None)) ((n : ℕ) → mismatch_from n None [] (lines_in bytes.now) ≡ Some n) }
{
    let Some((line, _)) = next_line(bytes) else {
        return false;
    };
    match line {
        Line::End => true,
        Line::Header | Line::Func { .. } | Line::Edge { .. } | Line::Other => false,
    }
}

/// The counts in the lines behind the first.
fn read_counts(alloc: Global, left: &[u8], funcs: &[TacFunc]) -> Result<Items<FuncCounts>, ProfErr>
    requires { length left.now ≤ 33554432 }
    ensures read { IfOk result (λ counts. counts ≡ counts_in (lines_in left.now)) }
    ensures matches { IfOk result (λ counts. mismatch_from 2 None funcs.now (lines_in left.now) ≡ None) }
    ensures blocks { IfOk result (λ counts. All (λ f. length f.blocks < 2 ^ 64) funcs.now) }
    ensures err { IfErr result (Misreads (λ fs. mismatch_from 2 None funcs.now (lines_in left.now))) }
{
    let mut lines = Lines { left, number: 2 };
    let mut counts = Items::new(alloc);
    'funcs: for func in funcs {
        let func_counts = read_func(alloc, func, &mut lines)?;
        counts.push(func_counts)?;
    }
    if is_end(lines.left) {
        Ok(counts)
    } else {
        Err(ProfErr::Mismatch(lines.number))
    }
}

/// The counts in the lines behind the first.
fn read_lines(alloc: Global, bytes: &[u8], funcs: &[TacFunc]) -> Result<Items<FuncCounts>, ProfErr>
    requires { length bytes.now ≤ 33554432 }
    ensures read { IfOk result (λ counts. counts ≡ counts_in (behind (lines_in bytes.now))) }
    ensures matches { IfOk result (λ counts. mismatch_at funcs.now bytes.now ≡ None) }
    ensures blocks { IfOk result (λ counts. All (λ f. length f.blocks < 2 ^ 64) funcs.now) }
    ensures err { IfErr result (Misreads (λ fs. mismatch_at funcs.now bytes.now)) }
{
    match next_line(bytes) {
        None => Err(ProfErr::Mismatch(1)),
        Some((_header, left)) => read_counts(alloc, left, funcs),
    }
}

/// The counts that a text gives, where it is the text of counts that match the program.
pub fn read_profile(alloc: Global, bytes: &[u8], tac: &TacProgram) -> Result<Counts, ProfErr>
    requires { length bytes.now ≤ 33554432 }
    ensures ok { IfOk result (λ counts. IsProfile tac.now counts bytes.now) }
    ensures refused { IfErr result (Refuses tac.now bytes.now) }
    ensures taken { (counts : List FuncCounts) → IsProfile tac.now counts bytes.now → MatchResult result (λ read. read ≡ counts) (λ error. error ≡ ProfErr.NoMemory) }
{
    let funcs = tac.funcs();
    if let Some(line) = malformed_at(bytes) {
        return Err(ProfErr::Malformed(line));
    }
    match read_lines(alloc, bytes, funcs) {
        Ok(counts) => Ok(Counts::keep(counts)),
        Err(error) => Err(error),
    }
}

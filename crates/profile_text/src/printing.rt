ghost use Rattle.std.specs.Prelude.{◌≡◌, ◌<◌, ◌^◌, ◌++◌, ◌∷◌, [], length, map, codes, decimal, IfOk};
ghost use Rattle.std.specs.List.{All};
ghost use Rattle.tac_core.specs.Counts.{AreOf};
ghost use Rattle.profile_text.specs.ProfileText.{IsProfile, HasLabels, edge_line, func_line, funcs_lines, ended, spaced};

use itoa::Buffer;
use std::alloc::{AllocError, Global};
use tac_core::{Counts, Edge, FuncCounts, TacFunc, TacProgram};

/// Appends a space and a number.
fn print_field(text: &mut Vec<u8>, number: u64) -> Result<(), AllocError>
    ensures { IfOk result (λ r. text.new.items ≡ text.old.items ++ (32 ∷ decimal number)) }
{
    text.extend_from_slice(b" ")?;
    text.extend_from_slice(Buffer::new().format(number).as_bytes())
}

fn print_edge(text: &mut Vec<u8>, edge: &Edge) -> Result<(), AllocError>
    ensures text { IfOk result (λ r. text.new.items ≡ text.old.items ++ ended (edge_line edge.now ∷ [])) }
    ensures labels { IfOk result (λ r. HasLabels edge.now) }
{
    text.extend_from_slice(b"edge")?;
    print_field(text, u64::from(edge.from))?;
    print_field(text, u64::from(edge.to))?;
    print_field(text, edge.count)?;
    text.extend_from_slice(b"\n")
}

fn print_func_line(text: &mut Vec<u8>, func: &TacFunc, entries: u64) -> Result<(), AllocError>
    ensures text { IfOk result (λ r. text.new.items ≡ text.old.items ++ ended (spaced (codes "func" ∷ func.now.name ∷ decimal (length func.now.blocks) ∷ decimal entries ∷ []) ∷ [])) }
    ensures blocks { IfOk result (λ r. length func.now.blocks < 2 ^ 64) }
{
    let blocks = func.blocks.len();
    text.extend_from_slice(b"func ")?;
    text.extend_from_slice(func.name.list())?;
    print_field(text, blocks as u64)?;
    print_field(text, entries)?;
    text.extend_from_slice(b"\n")
}

fn print_edges(text: &mut Vec<u8>, edges: &[Edge]) -> Result<(), AllocError>
    ensures text { IfOk result (λ r. text.new.items ≡ text.old.items ++ ended (map edge_line edges.now)) }
    ensures labels { IfOk result (λ r. All HasLabels edges.now) }
{
    for edge in edges {
        print_edge(text, edge)?;
    }
    Ok(())
}

fn print_func(text: &mut Vec<u8>, func: &TacFunc, counts: &FuncCounts) -> Result<(), AllocError>
    ensures text { IfOk result (λ r. text.new.items ≡ text.old.items ++ ended (func_line func.now counts.now ∷ map edge_line counts.now.edges)) }
    ensures labels { IfOk result (λ r. All HasLabels counts.now.edges) }
    ensures blocks { IfOk result (λ r. length func.now.blocks < 2 ^ 64) }
{
    print_func_line(text, func, counts.entries)?;
    print_edges(text, counts.edges.as_slice())
}

fn print_funcs(
    text: &mut Vec<u8>,
    funcs: &[TacFunc],
    counts: &[FuncCounts],
) -> Result<(), AllocError>
    requires { length counts.now ≡ length funcs.now }
    ensures text { IfOk result (λ r. text.new.items ≡ text.old.items ++ ended (funcs_lines funcs.now counts.now)) }
    ensures labels { IfOk result (λ r. All (λ c. All HasLabels c.edges) counts.now) }
    ensures blocks { IfOk result (λ r. All (λ f. length f.blocks < 2 ^ 64) funcs.now) }
{
    for (i, func) in funcs.iter().enumerate() {
        print_func(text, func, &counts[i])?;
    }
    Ok(())
}

/// The text of counts.
pub fn print_profile(
    alloc: Global,
    tac: &TacProgram,
    counts: &Counts,
) -> Result<Vec<u8>, AllocError>
    requires { AreOf counts.now tac.now }
    ensures { IfOk result (λ text. IsProfile tac.now counts.now text.items) }
{
    let mut text = Vec::from_slice(alloc, b"impactc profile 1\n")?;
    print_funcs(&mut text, tac.funcs(), counts.funcs())?;
    text.extend_from_slice(b"end\n")?;
    Ok(text)
}

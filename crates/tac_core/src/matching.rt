ghost use Rattle.std.specs.Prelude.{◌≡◌, ◌↔◌, IsTrue, length};
ghost use Rattle.tac_core.specs.Counts.{AreOfFuncs};

use crate::code::TacFunc;
use crate::counts::FuncCounts;
use crate::edges::has_edges;

fn have_edges(counts: &[FuncCounts], funcs: &[TacFunc]) -> bool
    requires { length counts.now ≡ length funcs.now }
    ensures { IsTrue result ↔ AreOfFuncs counts.now funcs.now }
{
    for (i, func_counts) in counts.iter().enumerate() {
        if !has_edges(&funcs[i], func_counts.edges.as_slice()) {
            return false;
        }
    }
    true
}

/// Whether there are counts for each of the functions, and only of edges that are there.
pub fn are_of(counts: &[FuncCounts], funcs: &[TacFunc]) -> bool
    ensures { IsTrue result ↔ AreOfFuncs counts.now funcs.now }
{
    counts.len() == funcs.len() && have_edges(counts, funcs)
}

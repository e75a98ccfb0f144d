use ib_base::{Place, Text};
use profile_text::ProfErr::{self, Malformed, Mismatch};
use profile_text::{print_profile, read_profile};
use smallvec::SmallVec;
use sqlite_items::Items;
use std::alloc::{AllocError, Global};
use tac_core::{Block, Counts, End, Regs, TacFunc, TacProgram};

const MOST: usize = 33_554_432;

fn block(alloc: Global, end: End) -> Block {
    Block {
        ops: Items::new(alloc),
        end,
        end_stmt: 0,
    }
}

fn func(alloc: Global, name: &[u8], blocks: Vec<Block>) -> Result<TacFunc, AllocError> {
    Ok(TacFunc {
        name: Text::from_bytes(alloc, name)?,
        params: Items::new(alloc),
        regs: 1,
        frame: 0,
        blocks: Items::from_vec(blocks),
    })
}

/// A block that jumps, one that goes back or on, and one that returns.
fn loop_blocks(alloc: Global) -> Result<Vec<Block>, AllocError> {
    let again = End::Branch {
        reg: 0,
        yes: 1,
        no: 2,
    };
    let blocks = vec![in alloc;
        block(alloc, End::Jump(1)),
        block(alloc, again),
        block(alloc, End::Ret(None)),
    ]?;
    Ok(blocks)
}

fn loop_program(alloc: Global) -> Result<Option<TacProgram>, AllocError> {
    let places = vec![in alloc; Place { line: 1, col: 1 }]?;
    let main = func(alloc, b"main", loop_blocks(alloc)?)?;
    Ok(TacProgram::assemble(Vec::new(alloc), places, vec![in alloc; main]?))
}

/// `while` is a name here, and calls nothing; `main` has one block.
fn two_functions(alloc: Global) -> Result<Option<TacProgram>, AllocError> {
    let places = vec![in alloc; Place { line: 1, col: 1 }]?;
    let mut funcs = Vec::new(alloc);
    funcs.push(func(alloc, b"while", loop_blocks(alloc)?)?)?;
    let last = vec![in alloc; block(alloc, End::Ret(None))]?;
    funcs.push(func(alloc, b"main", last)?)?;
    Ok(TacProgram::assemble(Vec::new(alloc), places, funcs))
}

fn read(alloc: Global, tac: &TacProgram, text: &[u8]) -> Result<Counts, ProfErr> {
    if text.len() > MOST {
        return Err(ProfErr::NoMemory);
    }
    read_profile(alloc, text, tac)
}

fn refusal(alloc: Global, tac: &TacProgram, text: &[u8]) -> Option<ProfErr> {
    match read(alloc, tac, text) {
        Ok(_) => None,
        Err(error) => Some(error),
    }
}

/// What is printed of the counts that a text gives.
fn printed_back(alloc: Global, tac: &TacProgram, text: &[u8]) -> Result<Vec<u8>, AllocError> {
    if text.len() > MOST {
        return Ok(Vec::new(alloc));
    }
    match read_profile(alloc, text, tac) {
        Ok(counts) => print_profile(alloc, tac, &counts),
        Err(_) => Ok(Vec::new(alloc)),
    }
}

const LOOP: &str = "impactc profile 1\nfunc main 3 1\nedge 0 1 1\nedge 1 1 2\nedge 1 2 1\nend\n";

const NONE: &str = "impactc profile 1\nfunc main 3 0\nend\n";

/// Texts that are no profiles of the loop, and why.
const OF_THE_LOOP: [(&str, ProfErr); 20] = [
    (
        "impactc profile 1\nfunc main 3 1\nedge 0 1 1\nedge 1 1 2\nedge 1 2 1\nend\n\n",
        Malformed(7),
    ),
    (
        "impactc profile 1\nfunc main 3 1\nedge 0 1 1\nedge 1 1 0\nedge 1 2 1\nend\n",
        Malformed(4),
    ),
    (
        "impactc profile 1\nfunc main 3 1\nedge 0 1 1\nedge 1 1 9223372036854775808\nend\n",
        Malformed(4),
    ),
    (
        "impactc profile 1\nfunc main 3 1\nedge 1 1 2\nedge 0 1 1\nedge 1 2 1\nend\n",
        Malformed(4),
    ),
    (
        "impactc profile 1\nfunc main 3 1\nedge 0 1 1\nedge 1 1 2\nedge 1 2 1\n",
        Malformed(6),
    ),
    (
        "impactc profile 1\nfunc main 4 1\nedge 0 1 1\nedge 1 1 2\nedge 1 2 1\nend\n",
        Mismatch(2),
    ),
    (
        "impactc profile 1\nfunc main 3 1\nedge 0 1 1\nedge 1 0 2\nedge 1 2 1\nend\n",
        Mismatch(4),
    ),
    (
        "impactc profile 1\nfunc main 3 1\nedge 0 1 1\nedge 0 1 1\nend\n",
        Malformed(4),
    ),
    (
        "impactc profile 1\nfunc main 3 9223372036854775808\nend\n",
        Malformed(2),
    ),
    ("impactc profile 1\nfunc main 03 1\nend\n", Malformed(2)),
    (
        "impactc profile 1\nfunc main 3 1\nedge 0 1\nend\n",
        Malformed(3),
    ),
    ("impactc profile 1\nfunc main 3 1\nend", Malformed(3)),
    ("impactc profile 1\nfunc main 3 1\nend\nx", Malformed(4)),
    ("impactc profile 2\nfunc main 3 1\nend\n", Malformed(1)),
    (
        "impactc profile 1\nfunc main 3 1\nedge 99999999999999999999999 1 1\nedge 99999999999999999999998 1 1\nend\n",
        Malformed(4),
    ),
    ("impactc profile 1\nfunc mail 3 1\nend\n", Mismatch(2)),
    (
        "impactc profile 1\nfunc main 18446744073709551619 1\nend\n",
        Mismatch(2),
    ),
    (
        "impactc profile 1\nfunc main 3 1\nedge 4294967296 1 1\nend\n",
        Mismatch(3),
    ),
    (
        "impactc profile 1\nfunc main 3 1\nedge 0 1 1\nfunc main 3 1\nend\n",
        Mismatch(4),
    ),
    ("impactc profile 1\nend\n", Mismatch(2)),
];

/// Texts that are no profiles of the two functions, and why.
const OF_TWO: [(&str, ProfErr); 3] = [
    (
        "impactc profile 1\nfunc main 1 1\nfunc while 3 1\nend\n",
        Mismatch(2),
    ),
    ("impactc profile 1\nfunc while 3 1\nend\n", Mismatch(3)),
    (
        "impactc profile 1\nfunc main 3 1\nfunc main 1 1\nend\nend\n",
        Malformed(5),
    ),
];

/// The first row whose text is not refused so.
fn wrong_refusal(alloc: Global, tac: &TacProgram, rows: &[(&str, ProfErr)]) -> Option<usize> {
    for (at, (text, error)) in rows.iter().enumerate() {
        if refusal(alloc, tac, text.as_bytes()) != Some(*error) {
            return Some(at);
        }
    }
    None
}

fn wrong_of_the_loop(alloc: Global) -> Result<Option<usize>, AllocError> {
    match loop_program(alloc)? {
        Some(tac) => Ok(wrong_refusal(alloc, &tac, &OF_THE_LOOP)),
        None => Ok(Some(0)),
    }
}

fn wrong_of_two(alloc: Global) -> Result<Option<usize>, AllocError> {
    match two_functions(alloc)? {
        Some(tac) => Ok(wrong_refusal(alloc, &tac, &OF_TWO)),
        None => Ok(Some(0)),
    }
}

/// The first text that is not printed back.
fn wrong_text(
    alloc: Global,
    tac: &TacProgram,
    texts: &[&str],
) -> Result<Option<usize>, AllocError> {
    for (at, text) in texts.iter().enumerate() {
        let printed = printed_back(alloc, tac, text.as_bytes())?;
        if printed.as_slice() != text.as_bytes() {
            return Ok(Some(at));
        }
    }
    Ok(None)
}

fn loop_printed_back(alloc: Global) -> Result<Option<usize>, AllocError> {
    let greatest =
        "impactc profile 1\nfunc main 3 9223372036854775807\nedge 0 1 9223372036854775807\nend\n";
    match loop_program(alloc)? {
        Some(tac) => wrong_text(alloc, &tac, &[LOOP, greatest, NONE]),
        None => Ok(Some(0)),
    }
}

fn two_printed_back(alloc: Global) -> Result<Option<usize>, AllocError> {
    let text = "impactc profile 1\nfunc while 3 7\nedge 1 2 7\nfunc main 1 1\nend\n";
    match two_functions(alloc)? {
        Some(tac) => wrong_text(alloc, &tac, &[text]),
        None => Ok(Some(0)),
    }
}

/// The entries of the loop and its edges, as its text gives them.
fn counts_of(alloc: Global, tac: &TacProgram) -> [u64; 4] {
    match read(alloc, tac, LOOP.as_bytes()) {
        Ok(counts) => [
            counts.entries(0),
            counts.edge(0, 0, 1),
            counts.edge(0, 1, 1),
            counts.edge(0, 1, 2),
        ],
        Err(_) => [0; 4],
    }
}

fn loop_is_counted(alloc: Global) -> Result<bool, AllocError> {
    match loop_program(alloc)? {
        Some(tac) => Ok(counts_of(alloc, &tac) == [1, 1, 2, 1]),
        None => Ok(false),
    }
}

fn zero_printed(alloc: Global, tac: &TacProgram) -> Result<bool, AllocError> {
    let counts = Counts::zero(alloc, tac)?;
    if !counts.matches(tac) {
        return Ok(false);
    }
    let printed = print_profile(alloc, tac, &counts)?;
    Ok(printed.as_slice() == NONE.as_bytes())
}

fn zero_is_printed(alloc: Global) -> Result<bool, AllocError> {
    match loop_program(alloc)? {
        Some(tac) => zero_printed(alloc, &tac),
        None => Ok(false),
    }
}

#[test]
fn counts_are_read(rt: HostRuntime) {
    assert!(rt; matches!(loop_is_counted(rt.alloc()), Ok(true)));
}

#[test]
fn counts_are_printed_back(rt: HostRuntime) {
    assert!(rt; matches!(loop_printed_back(rt.alloc()), Ok(None)));
    assert!(rt; matches!(two_printed_back(rt.alloc()), Ok(None)));
}

#[test]
fn no_counts_are_printed_without_edges(rt: HostRuntime) {
    assert!(rt; matches!(zero_is_printed(rt.alloc()), Ok(true)));
}

#[test]
fn what_is_no_profile_is_refused_at_its_line(rt: HostRuntime) {
    assert!(rt; matches!(wrong_of_the_loop(rt.alloc()), Ok(None)));
    assert!(rt; matches!(wrong_of_two(rt.alloc()), Ok(None)));
}

use crate::shown::show_row;
use std::io;

/// How a block of a row ends. A call is of the second function, without arguments.
#[derive(Clone, Copy)]
pub enum Goes {
    Jump(u32),
    Branch(u32, u32),
    Call(u32),
    Ret,
}

/// So many operations, and an end.
pub type Shape = (u32, Goes);

const DIAMOND: &[Shape] = &[
    (0, Goes::Branch(1, 2)),
    (0, Goes::Jump(3)),
    (0, Goes::Jump(3)),
    (0, Goes::Ret),
];

/// 1 and 2 in turns; 0 enters at either, and 2 leaves.
const LOOP: &[Shape] = &[
    (0, Goes::Branch(1, 2)),
    (0, Goes::Jump(2)),
    (0, Goes::Branch(1, 3)),
    (0, Goes::Ret),
];

/// 1, 2 and 3 in turns; 0 enters at 1 and at 2, and 1 passes 2 over.
const MIDDLE: &[Shape] = &[
    (0, Goes::Branch(1, 2)),
    (0, Goes::Branch(2, 3)),
    (0, Goes::Branch(3, 4)),
    (0, Goes::Jump(1)),
    (0, Goes::Ret),
];

const CALLS: &[Shape] = &[
    (0, Goes::Jump(1)),
    (0, Goes::Call(2)),
    (0, Goes::Jump(3)),
    (0, Goes::Ret),
];

/// 2048 operations.
const FULL: &[Shape] = &[
    (511, Goes::Jump(1)),
    (511, Goes::Jump(2)),
    (511, Goes::Jump(3)),
    (511, Goes::Ret),
];

/// One operation more.
const OVER: &[Shape] = &[
    (511, Goes::Jump(1)),
    (511, Goes::Jump(2)),
    (511, Goes::Jump(3)),
    (512, Goes::Ret),
];

/// Traces of a diamond.
pub fn diamonds(rt: &HostRuntime) -> io::Result<()> {
    show_row(
        rt,
        "70 of 100",
        DIAMOND,
        "impactc profile 1\nfunc main 4 100\nedge 0 1 70\nedge 0 2 30\nedge 1 3 70\nedge 2 3 30\nfunc f 1 0\nend\n",
    )?;
    show_row(
        rt,
        "69 of 100",
        DIAMOND,
        "impactc profile 1\nfunc main 4 100\nedge 0 1 69\nedge 0 2 31\nedge 1 3 69\nedge 2 3 31\nfunc f 1 0\nend\n",
    )?;
    show_row(
        rt,
        "the greatest count and the least",
        DIAMOND,
        "impactc profile 1\nfunc main 4 9223372036854775807\nedge 0 1 9223372036854775807\nedge 0 2 1\nedge 1 3 9223372036854775807\nedge 2 3 1\nfunc f 1 0\nend\n",
    )?;
    show_row(
        rt,
        "the greatest count everywhere",
        DIAMOND,
        "impactc profile 1\nfunc main 4 9223372036854775807\nedge 0 1 9223372036854775807\nedge 0 2 9223372036854775807\nedge 1 3 9223372036854775807\nedge 2 3 9223372036854775807\nfunc f 1 0\nend\n",
    )?;
    show_row(
        rt,
        "nothing was counted",
        DIAMOND,
        "impactc profile 1\nfunc main 4 0\nfunc f 1 0\nend\n",
    )
}

/// Traces of loops.
pub fn loops(rt: &HostRuntime) -> io::Result<()> {
    show_row(
        rt,
        "a cycle of equal weights",
        LOOP,
        "impactc profile 1\nfunc main 4 10\nedge 0 1 5\nedge 0 2 5\nedge 1 2 95\nedge 2 1 95\nedge 2 3 5\nfunc f 1 0\nend\n",
    )?;
    show_row(
        rt,
        "a cycle whose second block has the greater weight",
        LOOP,
        "impactc profile 1\nfunc main 4 10\nedge 0 1 4\nedge 0 2 6\nedge 1 2 95\nedge 2 1 95\nedge 2 3 6\nfunc f 1 0\nend\n",
    )?;
    show_row(
        rt,
        "a loop that is entered at its first block and in its middle",
        MIDDLE,
        "impactc profile 1\nfunc main 5 60\nedge 0 1 50\nedge 0 2 10\nedge 1 2 750\nedge 1 3 250\nedge 2 3 700\nedge 2 4 60\nedge 3 1 950\nfunc f 1 0\nend\n",
    )?;
    show_row(
        rt,
        "best for one side alone",
        LOOP,
        "impactc profile 1\nfunc main 4 10\nedge 0 1 10\nedge 1 2 60\nedge 2 1 50\nedge 2 3 10\nfunc f 1 0\nend\n",
    )
}

/// Traces that end.
pub fn ends(rt: &HostRuntime) -> io::Result<()> {
    show_row(
        rt,
        "a call and a return",
        CALLS,
        "impactc profile 1\nfunc main 4 10\nedge 0 1 10\nedge 1 2 10\nedge 2 3 10\nfunc f 1 10\nend\n",
    )?;
    show_row(
        rt,
        "2048 operations",
        FULL,
        "impactc profile 1\nfunc main 4 1\nedge 0 1 1\nedge 1 2 1\nedge 2 3 1\nfunc f 1 0\nend\n",
    )?;
    show_row(
        rt,
        "2049 operations",
        OVER,
        "impactc profile 1\nfunc main 4 1\nedge 0 1 1\nedge 1 2 1\nedge 2 3 1\nfunc f 1 0\nend\n",
    )
}

ghost use Rattle.std.specs.Prelude.{◌≡◌, IfOk, slice_get};
ghost use Rattle.tail_dup.specs.Tables.{led, led_end, led_block, copied_label};

use sqlite_items::Items;
use std::alloc::{AllocError, Global};
use tac_core::{Block, End};

fn copied_label(copies: &[Option<u32>], label: u32) -> u32
    ensures { result ≡ copied_label (slice_get copies.now label) label }
{
    match sqlite_items::at(copies, label as usize) {
        None => label,
        Some(copy) => match copy {
            None => label,
            Some(copy) => *copy,
        },
    }
}

/// Where an edge to a block leads. It leaves a given block, or a copy.
fn led(before: &[Option<u32>], copies: &[Option<u32>], leaves: Option<u32>, to: u32) -> u32
    ensures { result ≡ led before.now copies.now leaves to }
{
    match sqlite_items::at(before, to as usize) {
        None => to,
        Some(prior) => match prior {
            None => to,
            Some(prior) => {
                if leaves == Some(*prior) {
                    to
                } else {
                    copied_label(copies, to)
                }
            }
        },
    }
}

fn led_end(
    alloc: Global,
    before: &[Option<u32>],
    copies: &[Option<u32>],
    leaves: Option<u32>,
    end: &End,
) -> Result<End, AllocError>
    ensures { IfOk result (λ end'. end' ≡ led_end before.now copies.now leaves end.now) }
{
    match end {
        End::Jump(next) => Ok(End::Jump(led(before, copies, leaves, *next))),
        End::Branch { reg, yes, no } => Ok(End::Branch {
            reg: *reg,
            yes: led(before, copies, leaves, *yes),
            no: led(before, copies, leaves, *no),
        }),
        End::Call {
            dest,
            func,
            args,
            next,
        } => {
            let args = args.copy(alloc)?;
            Ok(End::Call {
                dest: *dest,
                func: *func,
                args,
                next: led(before, copies, leaves, *next),
            })
        }
        End::Ret(reg) => Ok(End::Ret(*reg)),
    }
}

/// A block with its edges led.
pub(crate) fn led_block(
    alloc: Global,
    before: &[Option<u32>],
    copies: &[Option<u32>],
    leaves: Option<u32>,
    block: &Block,
) -> Result<Block, AllocError>
    ensures { IfOk result (λ made. made ≡ led_block before.now copies.now leaves block.now) }
{
    let ops = Items::from_slice(alloc, block.ops.as_slice())?;
    let end = led_end(alloc, before, copies, leaves, &block.end)?;
    Ok(Block {
        ops,
        end,
        end_stmt: block.end_stmt,
    })
}

ghost use Rattle.std.specs.Prelude.{◌≡◌, ◌*◌, [], IfOk};
ghost use Rattle.ib_meaning.specs.Agreement.{Agrees, Within};
ghost use Rattle.sb_core.specs.Facts.{AreSuperblocks};
ghost use Rattle.sb_core.specs.Meaning.{superblock_meaning};
ghost use Rattle.sb_form.specs.Growing.{LacksBy};
ghost use Rattle.sb_formed.specs.Formed.{drafted, formed};
ghost use Rattle.tac_core.specs.Meaning.{tac_meaning};
ghost use Rattle.tac_core.specs.Rules.{IsValid};

use crate::chains::{Forming, form_func};
use sb_core::SbProgram;
use sqlite_items::Items;
use std::alloc::{AllocError, Global};
use tac_core::{Copied, Formed, labels_of, number_at};

fn copy_of(alloc: Global, copied: &Copied) -> Result<Copied, AllocError>
    ensures { IfOk result (λ copy. copy ≡ copied.now) }
{
    let labels = labels_of(alloc, copied.tac().funcs())?;
    let tac = copied.tac().copy(alloc)?;
    copied.again(alloc, tac, labels.as_slice())
}

/// The superblocks of all functions, numbered from 1 on.
fn form_all(alloc: Global, given: &Formed) -> Result<Forming, AllocError>
    ensures lacks { IfOk result (λ forming. LacksBy [] (drafted given.now.copied.tac.places 0 given.now.copied.tac.funcs given.now.traces) forming.next forming.all) }
    ensures valid { IfOk result (λ forming. IsValid given.now.copied.tac) }
{
    let tac = given.copied().tac();
    let funcs = tac.funcs();
    let mut forming = Forming {
        all: Items::new(alloc),
        next: 1,
    };
    for i in 0..funcs.len() {
        let number = number_at(i)?;
        let Some(chains) = given.traces().chains(number) else {
            unreachable!()
        };
        form_func(alloc, &mut forming, tac.places(), number, &funcs[i], chains)?;
    }
    Ok(forming)
}

/// The superblocks of the chains, which mean what the copied program means. Numbers that 32 bits cannot tell are refused as
/// want of memory is.
pub fn form(alloc: Global, given: &Formed) -> Result<SbProgram, AllocError>
    ensures value { IfOk result (λ sb. sb ≡ formed given.now) }
    ensures agrees { IfOk result (λ sb. Agrees (tac_meaning given.now.copied.tac) (superblock_meaning sb)) }
    ensures within { IfOk result (λ sb. Within (λ n. 2 * n) (tac_meaning given.now.copied.tac) (superblock_meaning sb)) }
    ensures superblocks { IfOk result (λ sb. AreSuperblocks sb.copied.tac.funcs sb.all) }
{
    let forming = form_all(alloc, given)?;
    let copied = copy_of(alloc, given.copied())?;
    Ok(SbProgram::keep(copied, forming.all))
}

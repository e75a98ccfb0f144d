ghost use Rattle.std.specs.Prelude.{◌≡◌, ◌≤◌, ◌++◌, map, IfOk, OnOk};
ghost use Rattle.std.specs.List.{All};
ghost use Rattle.tac_core.specs.Meaning.{place_of};
ghost use Rattle.plain_code.specs.Plain.{all_items, block_items, place};
ghost use Rattle.wide_plain.specs.Emitted.{Emits, PassesFew, word_of};
ghost use Rattle.wide_plain.specs.Made.{IsPlainFunc, NeedsFewSlots};

use crate::emitter::Emitter;
use crate::homes::Homes;
use crate::starts::Starts;
use ib_base::Place;
use sqlite_items::Items;
use std::alloc::{AllocError, Global};
use tac_core::{Block, TacFunc};
use wide_core::{Loc, WideFunc};

/// A function's code, and the number behind those of its operations.
#[derive(Drop)]
pub(crate) struct PlainFunc {
    pub(crate) func: WideFunc,
    pub(crate) next: u32,
}

fn place_of(places: &[Place], stmt: u32) -> Place
    ensures { result ≡ place_of places.now stmt }
{
    match sqlite_items::at(places, stmt as usize) {
        None => Place { line: 1, col: 1 },
        Some(place) => *place,
    }
}

impl Emitter {
    /// Emits a block: its operations, and its end.
    fn emit_block(
        &mut self,
        alloc: Global,
        homes: Homes,
        places: &[Place],
        starts: &Starts,
        block: &Block,
    ) -> Result<(), AllocError>
        requires { PassesFew block.now }
        ensures { OnOk result (Emits (block_items homes.low places.now (word_of starts.now) block.now) self.old self.new) }
    {
        for op in block.ops.as_slice() {
            let home = place_of(places, op.stmt);
            self.emit_act(alloc, homes, home, op.act)?;
        }
        let home = place_of(places, block.end_stmt);
        self.emit_end(alloc, homes, starts, home, &block.end)
    }

    fn emit_blocks(
        &mut self,
        alloc: Global,
        homes: Homes,
        places: &[Place],
        starts: &Starts,
        blocks: &[Block],
    ) -> Result<(), AllocError>
        requires { All PassesFew blocks.now }
        ensures { OnOk result (Emits (all_items homes.low places.now (word_of starts.now) blocks.now) self.old self.new) }
    {
        for block in blocks {
            self.emit_block(alloc, homes, places, starts, block)?;
        }
        Ok(())
    }
}

impl Homes {
    fn all_places(self, alloc: Global, params: &[u32]) -> Result<Items<Loc>, AllocError>
        ensures { IfOk result (λ list. list ≡ map (place self.low) params.now) }
    {
        let mut list = Items::new(alloc);
        for param in params {
            list.push(self.place(*param))?;
        }
        Ok(list)
    }
}

/// A function's code, whose first operation has this number.
pub(crate) fn plain_func(
    alloc: Global,
    homes: Homes,
    places: &[Place],
    number: u32,
    func: &TacFunc,
) -> Result<PlainFunc, AllocError>
    requires { All PassesFew func.now.blocks }
    ensures made { IfOk result (λ made. IsPlainFunc homes.low places.now number func.now made.func made.next) }
    ensures few { OnOk result (NeedsFewSlots homes.low func.now) }
{
    let slots = homes.slots(func.regs)?;
    let name = func.name.copy(alloc)?;
    let params = homes.all_places(alloc, func.params.as_slice())?;
    let starts = Starts::of_blocks(alloc, homes, func.blocks.as_slice())?;
    let mut emitter = Emitter::from_number(alloc, number);
    emitter.emit_blocks(alloc, homes, places, &starts, func.blocks.as_slice())?;
    let Emitter {
        words,
        number: next,
    } = emitter;
    let func = WideFunc {
        name,
        params,
        frame: func.frame,
        slots,
        words,
    };
    Ok(PlainFunc { func, next })
}

ghost use Rattle.std.specs.Prelude.{◌≡◌, ◌+◌, ◌*◌, ◌^◌, IfOk, OnOk};
ghost use Rattle.std.specs.List.{All};
ghost use Rattle.ib_meaning.specs.Agreement.{Agrees, Within};
ghost use Rattle.tac_core.specs.Meaning.{tac_meaning};
ghost use Rattle.tac_core.specs.Rules.{IsValid};
ghost use Rattle.wide_core.specs.Meaning.{wide_meaning};
ghost use Rattle.wide_core.specs.Valid.{IsValid as IsValidCode, limits};
ghost use Rattle.plain_code.specs.Plain.{HasFewSlots, funcs_from, plain};
ghost use Rattle.plain_code.specs.Single.{IsPlain};
ghost use Rattle.wide_plain.specs.Emitted.{PassFew};
ghost use Rattle.wide_plain.specs.Made.{NeedsFewSlots};

use crate::function::{PlainFunc, plain_func};
use crate::homes::Homes;
use ib_base::Place;
use machine_desc::Machine;
use sqlite_items::Items;
use std::alloc::{AllocError, Global};
use tac_core::{TacFunc, TacProgram};
use wide_core::{RawCode, WideCode, WideFunc};

fn plain_funcs(
    alloc: Global,
    homes: Homes,
    places: &[Place],
    funcs: &[TacFunc],
) -> Result<Items<WideFunc>, AllocError>
    requires { PassFew funcs.now }
    ensures made { IfOk result (λ list. list ≡ funcs_from homes.low places.now 1 funcs.now) }
    ensures few { OnOk result (All (NeedsFewSlots homes.low) funcs.now) }
{
    let mut list = Items::new(alloc);
    let mut number = 1;
    for func in funcs {
        let made = plain_func(alloc, homes, places, number, func)?;
        let PlainFunc { func, next } = made;
        list.push(func)?;
        number = next;
    }
    Ok(list)
}

fn plain_raw(alloc: Global, homes: Homes, tac: &TacProgram) -> Result<RawCode, AllocError>
    ensures code { IfOk result (λ code. code ≡ plain (homes.low + 8) tac.now) }
    ensures few { OnOk result (HasFewSlots (homes.low + 8) tac.now) }
    ensures given { OnOk result (IsValid tac.now) }
{
    let image = Items::from_slice(alloc, tac.image())?;
    let funcs = plain_funcs(alloc, homes, tac.places(), tac.funcs())?;
    Ok(RawCode { image, funcs })
}

/// The program's code in source order, one operation in each word and none flagged.
///
/// Numbers of words and operations have 32 bits. A program that would need more finds no memory, as does a function that
/// would need more slots than valid code may have.
pub fn plain<M: Machine>(alloc: Global, tac: &TacProgram) -> Result<WideCode<M>, AllocError>
    ensures code { IfOk result (λ code. code ≡ plain M.REGS tac.now) }
    ensures single { IfOk result IsPlain }
    ensures valid { IfOk result (IsValidCode (limits M.WIDTH M.REGS M.units_of)) }
    ensures agrees { IfOk result (λ code. Agrees (tac_meaning tac.now) (wide_meaning M.latency_of code)) }
    ensures within { IfOk result (λ code. Within (λ k. 2 ^ 8 * (k + 1)) (tac_meaning tac.now) (wide_meaning M.latency_of code)) }
{
    let raw = plain_raw(alloc, Homes::of::<M>(), tac)?;
    let code = WideCode::keep(raw);
    Ok(code)
}

ghost use Rattle.std.specs.Prelude.{◌≡◌, ◌-◌, ◌++◌, ◌≤◌, length, map, take, drop, slice_index_or, IfOk};
ghost use Rattle.ib_mem.specs.Memory.{zeros, bytes_of as number_bytes};
ghost use Rattle.c_layout.specs.Sizes.{bytes_of, element_size};
ghost use Rattle.c_layout.specs.Layout.{first_address, start_of, datum_bytes, data_bytes, padded, global_bytes, globals_bytes, texts_bytes};

use crate::addresses::{FIRST_ADDRESS, behind_start};
use crate::data::{Datum, GlobalData};
use crate::shape::aligned;
use std::alloc::{AllocError, Global};

/// Appends the lowest bytes of a number, as many as wanted, the lowest first.
#[tactic(auto, using(crate::proofs::Padding::number_put))]
fn put_number(bytes: &mut Vec<u8>, count: u32, number: u64) -> Result<(), AllocError>
    ensures { IfOk result (λ r. bytes.new.items ≡ bytes.old.items ++ number_bytes count number) }
{
    if count == 0 {
        return Ok(());
    }
    bytes.push((number % 256) as u8)?;
    put_number(bytes, count - 1, number / 256)
}

/// The address of a string literal, or 0 where there is none of this number.
fn string_at(strings: &[u32], ordinal: u32) -> u32
    ensures { result ≡ slice_index_or strings.now ordinal 0 }
{
    strings.get(ordinal as usize).copied().unwrap_or(0)
}

fn put_datum(
    bytes: &mut Vec<u8>,
    strings: &[u32],
    size: u32,
    datum: Datum,
) -> Result<(), AllocError>
    ensures { IfOk result (λ r. bytes.new.items ≡ bytes.old.items ++ datum_bytes strings.now size datum) }
{
    match datum {
        Datum::Number(number) => put_number(bytes, size, number.cast_unsigned()),
        Datum::Text(ordinal) => put_number(bytes, size, u64::from(string_at(strings, ordinal))),
    }
}

fn put_data(
    bytes: &mut Vec<u8>,
    strings: &[u32],
    size: u32,
    held: &[Datum],
) -> Result<(), AllocError>
    ensures { IfOk result (λ r. bytes.new.items ≡ bytes.old.items ++ data_bytes strings.now size held.now) }
{
    for datum in held {
        put_datum(bytes, strings, size, *datum)?;
    }
    Ok(())
}

/// Lets only so many bytes stand behind the first ones, with zeros where there are fewer.
#[tactic(auto, using(crate::proofs::Padding::resized))]
fn pad(bytes: &mut Vec<u8>, first: usize, size: u64) -> Result<(), AllocError>
    requires { first ≤ length bytes.old.items }
    ensures { IfOk result (λ r. bytes.new.items ≡ take first bytes.old.items ++ padded size (drop first bytes.old.items)) }
{
    let size = usize::try_from(size).ok().ok_or(AllocError)?;
    bytes.resize(first.checked_add(size).ok_or(AllocError)?, 0)
}

#[tactic(auto, using(crate::proofs::Padding::padded_behind))]
fn put_global(bytes: &mut Vec<u8>, strings: &[u32], global: &GlobalData) -> Result<(), AllocError>
    ensures { IfOk result (λ r. bytes.new.items ≡ bytes.old.items ++ global_bytes strings.now global.now) }
{
    let first = bytes.len();
    put_data(
        bytes,
        strings,
        global.shape.element_size(),
        global.held.as_slice(),
    )?;
    pad(bytes, first, global.shape.size()?)
}

/// Appends so many zeros.
#[tactic(auto, using(crate::proofs::Padding::zeros_behind))]
fn put_zeros(bytes: &mut Vec<u8>, count: u64) -> Result<(), AllocError>
    ensures { IfOk result (λ r. bytes.new.items ≡ bytes.old.items ++ zeros count) }
{
    let first = bytes.len();
    pad(bytes, first, count)
}

#[tactic(auto, using(crate::proofs::Lengths::start_behind))]
fn put_globals(
    bytes: &mut Vec<u8>,
    strings: &[u32],
    globals: &[GlobalData],
) -> Result<(), AllocError>
    ensures { IfOk result (λ r. bytes.new.items ≡ bytes.old.items ++ globals_bytes strings.now first_address globals.now) }
{
    let mut at = FIRST_ADDRESS;
    for global in globals {
        let start = aligned(global.shape.element_size(), at)?;
        put_zeros(bytes, start - at)?;
        put_global(bytes, strings, global)?;
        at = behind_start(start, global.shape)?;
    }
    Ok(())
}

fn put_texts(bytes: &mut Vec<u8>, texts: &[&[u8]]) -> Result<(), AllocError>
    ensures { IfOk result (λ r. bytes.new.items ≡ bytes.old.items ++ texts_bytes (map (λ text. text.now) texts.now)) }
{
    for text in texts {
        bytes.extend_from_slice(text)?;
        bytes.push(0)?;
    }
    Ok(())
}

/// The bytes of memory from 4096 on: the globals, where string literals lie at these addresses,
/// and the literals behind them, each with a closing zero.
pub fn image(
    alloc: Global,
    globals: &[GlobalData],
    strings: &[u32],
    texts: &[&[u8]],
) -> Result<Vec<u8>, AllocError>
    ensures { IfOk result (λ bytes. bytes.items ≡ globals_bytes strings.now first_address globals.now ++ texts_bytes (map (λ text. text.now) texts.now)) }
{
    let mut bytes = Vec::new(alloc);
    put_globals(&mut bytes, strings, globals)?;
    put_texts(&mut bytes, texts)?;
    Ok(bytes)
}

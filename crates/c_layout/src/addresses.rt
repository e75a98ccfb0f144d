ghost use Rattle.std.specs.Prelude.{◌≡◌, ◌+◌, map, length, IfOk};
ghost use Rattle.c_layout.specs.Sizes.{bytes_of};
ghost use Rattle.c_layout.specs.Layout.{first_address, start_of, addresses, behind, text_addresses, behind_texts, texts_behind, image_size};

use crate::data::GlobalData;
use crate::shape::{Shape, aligned};
use std::alloc::{AllocError, Global};

/// Where the bytes of a program begin.
pub(crate) const FIRST_ADDRESS: u64 = 4096;

/// The address behind a variable that starts there.
pub(crate) fn behind_start(start: u64, shape: Shape) -> Result<u64, AllocError>
    ensures { IfOk result (λ next. next ≡ start + bytes_of shape) }
{
    start.checked_add(shape.size()?).ok_or(AllocError)
}

/// The address behind a string literal at an address, and its closing zero.
fn behind_text(at: u64, text: &[u8]) -> Result<u64, AllocError>
    ensures { IfOk result (λ next. next ≡ at + length text.now + 1) }
{
    let end = at.checked_add(text.len() as u64).ok_or(AllocError)?;
    end.checked_add(1).ok_or(AllocError)
}

fn address(at: u64) -> Result<u32, AllocError>
    ensures { IfOk result (λ address. address ≡ at) }
{
    u32::try_from(at).ok().ok_or(AllocError)
}

/// The address behind globals.
fn behind(globals: &[GlobalData]) -> Result<u64, AllocError>
    ensures { IfOk result (λ end. end ≡ behind first_address globals.now) }
{
    let mut at = FIRST_ADDRESS;
    for global in globals {
        let start = aligned(global.shape.element_size(), at)?;
        at = behind_start(start, global.shape)?;
    }
    Ok(at)
}

fn behind_texts(from: u64, texts: &[&[u8]]) -> Result<u64, AllocError>
    ensures { IfOk result (λ end. end ≡ behind_texts from (map (λ text. text.now) texts.now)) }
{
    let mut at = from;
    for text in texts {
        at = behind_text(at, text)?;
    }
    Ok(at)
}

/// How many bytes globals and string literals take.
#[tactic(auto, using(crate::proofs::Lengths::past_first))]
pub fn image_size(globals: &[GlobalData], texts: &[&[u8]]) -> Result<u64, AllocError>
    ensures { IfOk result (λ size. size ≡ image_size globals.now (map (λ text. text.now) texts.now)) }
{
    let end = behind_texts(behind(globals)?, texts)?;
    Ok(end - FIRST_ADDRESS)
}

/// The addresses of globals. Addresses past a `u32` find no memory.
pub fn global_addresses(alloc: Global, globals: &[GlobalData]) -> Result<Vec<u32>, AllocError>
    ensures { IfOk result (λ found. found.items ≡ addresses first_address globals.now) }
{
    let mut found = Vec::new(alloc);
    let mut at = FIRST_ADDRESS;
    for global in globals {
        let start = aligned(global.shape.element_size(), at)?;
        found.push(address(start)?)?;
        at = behind_start(start, global.shape)?;
    }
    Ok(found)
}

/// The addresses of string literals, which lie behind globals. Addresses past a `u32` find no
/// memory.
pub fn string_addresses(
    alloc: Global,
    globals: &[GlobalData],
    texts: &[&[u8]],
) -> Result<Vec<u32>, AllocError>
    ensures { IfOk result (λ found. found.items ≡ texts_behind globals.now (map (λ text. text.now) texts.now)) }
{
    let mut found = Vec::new(alloc);
    let mut at = behind(globals)?;
    for text in texts {
        found.push(address(at)?)?;
        at = behind_text(at, text)?;
    }
    Ok(found)
}

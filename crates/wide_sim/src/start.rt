ghost use Rattle.std.specs.Prelude.{◌≡◌, ◌≤◌, length, IfOk};
ghost use Rattle.wide_core.specs.Parts.{first_base, first_memory, is_main, number_of_main};

use ib_mem::Memory;
use std::alloc::{AllocError, Global};
use wide_core::WideFunc;

/// Where the image lies.
const IMAGE: u32 = 4096;

/// The memory with the image, and zeros behind it.
#[tactic(auto, unfolding(wide_core::specs::Parts::first_memory))]
pub(crate) fn first_memory(alloc: Global, image: &[u8]) -> Result<Memory, AllocError>
    requires { length image.now ≤ 524288 }
    ensures { IfOk result (λ memory. memory ≡ first_memory image.now) }
{
    let mut memory = Memory::new(alloc)?;
    memory.fill(IMAGE, image);
    Ok(memory)
}

/// Where the first frame begins: behind the image, at a multiple of 16.
pub(crate) fn first_base(image: &[u8]) -> u32
    requires { length image.now ≤ 524288 }
    ensures { result ≡ first_base (length image.now) }
{
    let len = image.len() as u32;
    IMAGE + 16 * ((len + 15) / 16)
}

/// The number of the first function `main`.
pub(crate) fn number_of_main(funcs: &[WideFunc]) -> usize
    ensures { result ≡ number_of_main funcs.now }
{
    for (i, func) in funcs.iter().enumerate() {
        if is_main(func) {
            return i;
        }
    }
    funcs.len()
}

fn is_main(func: &WideFunc) -> bool
    ensures { result ≡ is_main func.now }
{
    func.name.list() == b"main".as_slice()
}

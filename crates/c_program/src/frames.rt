ghost use Rattle.std.specs.Prelude.{◌≡◌, ◌+◌, ◌*◌, ◌/◌, length, map, find, IfOk};
ghost use Rattle.std.specs.Option.{option_map};
ghost use Rattle.c_typed.specs.Views.{function_of};
ghost use Rattle.c_program.specs.Limits.{is_large};

use c_typed::Function;
use std::alloc::{AllocError, Global};

/// How many bytes a frame may take.
const FRAME_LIMIT: u64 = 262_144;

/// The bytes of the first frame that is too large.
pub(crate) fn large_frame(functions: &[Function]) -> Option<u64>
    ensures { result ≡ option_map (λ f. f.frame) (find is_large (map function_of functions.now)) }
{
    for function in functions {
        if FRAME_LIMIT < function.frame {
            return Some(function.frame);
        }
    }
    None
}

/// The sizes of frames. Sizes past a `u32` find no memory.
pub(crate) fn frame_sizes(alloc: Global, functions: &[Function]) -> Result<Vec<u32>, AllocError>
    ensures { IfOk result (λ sizes. sizes.items ≡ map (λ f. f.frame) (map function_of functions.now)) }
{
    let mut sizes = Vec::new(alloc);
    for function in functions {
        let size = u32::try_from(function.frame).ok().ok_or(AllocError)?;
        sizes.push(size)?;
    }
    Ok(sizes)
}

/// Where the first frame begins behind the bytes from 4096 on: at a multiple of 16. An address past
/// a `u32` finds no memory.
pub(crate) fn first_frame(image: &[u8]) -> Result<u32, AllocError>
    ensures { IfOk result (λ start. start ≡ 4096 + 16 * ((length image.now + 15) / 16)) }
{
    let bytes = u32::try_from(image.len()).ok().ok_or(AllocError)?;
    let blocks = (u64::from(bytes) + 15) / 16;
    u32::try_from(4096 + 16 * blocks).ok().ok_or(AllocError)
}

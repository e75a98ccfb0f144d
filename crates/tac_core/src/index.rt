ghost use Rattle.std.specs.Prelude.{◌≡◌, ◌<◌, ◌↔◌, IfOk, IsOk};

use std::alloc::AllocError;

/// The number that names what stands at this index: a block's label, a function's number. Numbers have 32 bits; what
/// stands behind all of them, and nothing else, is refused as want of memory is.
pub fn number_at(index: usize) -> Result<u32, AllocError>
    ensures number { IfOk result (λ number. number ≡ index) }
    ensures exact { IsOk result ↔ index < 4294967296 }
{
    match u32::try_from(index) {
        Ok(number) => Ok(number),
        Err(_) => Err(AllocError),
    }
}

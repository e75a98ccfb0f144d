ghost use Rattle.std.specs.Prelude.{◌≡◌, IfOk};
ghost use Rattle.c_layout.specs.Sizes.{aligned, bytes_of, element_size};

use c_typed::ValueType;
use std::alloc::AllocError;

/// A scalar, or an array of so many elements.
#[derive(Clone, Copy)]
pub enum Shape {
    Scalar(ValueType),
    Array { element: ValueType, length: u64 },
}

impl Shape {
    /// The size of the scalar or of an element, in bytes. Its address is a multiple of it.
    pub fn element_size(self) -> u32
        ensures { result ≡ element_size self }
    {
        match self {
            Shape::Scalar(ty) => ty.size(),
            Shape::Array { element, .. } => element.size(),
        }
    }

    /// In bytes. More bytes than a `u64` counts find no memory.
    pub fn size(self) -> Result<u64, AllocError>
        ensures { IfOk result (λ size. size ≡ bytes_of self) }
    {
        match self {
            Shape::Scalar(ty) => Ok(u64::from(ty.size())),
            Shape::Array { element, length } => {
                length
                    .checked_mul(u64::from(element.size()))
                    .ok_or(AllocError)
            }
        }
    }
}

/// The first multiple of a size that does not lie before an address.
pub fn aligned(size: u32, at: u64) -> Result<u64, AllocError>
    ensures { IfOk result (λ next. next ≡ aligned size at) }
{
    let size = u64::from(size);
    if size == 0 {
        return Ok(at);
    }
    let last = at.checked_add(size - 1).ok_or(AllocError)?;
    Ok(last / size * size)
}

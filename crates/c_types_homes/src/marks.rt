ghost use Rattle.std.specs.Prelude.{◌≡◌, ◌<◌, ℕ, false, length, slice_index_or, IfOk};
ghost use Rattle.c_types_homes.specs.Homes.{holds};

use std::alloc::{AllocError, Global};

/// Which of so many numbers a list holds.
pub(crate) fn marks(alloc: Global, count: usize, numbers: &[u32]) -> Result<Vec<bool>, AllocError>
    ensures marks { IfOk result (λ marks. (k : ℕ) → k < count → slice_index_or marks.items k false ≡ holds numbers.now k) }
    ensures len { IfOk result (λ marks. length marks.items ≡ count) }
{
    let mut marks = vec![in alloc; false; count]?;
    for number in numbers {
        if let Some(mark) = marks.get_mut(*number as usize) {
            *mark = true;
        }
    }
    Ok(marks)
}

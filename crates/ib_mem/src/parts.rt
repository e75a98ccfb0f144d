ghost use Rattle.std.specs.Prelude.{◌≡◌, ◌+◌, ◌≤◌, length, IfOk};
ghost use Rattle.ib_mem.specs.Memory.{zeros, bytes_of, cleared, filled};

use crate::number::write_number;
use std::alloc::{AllocError, Global};

/// So many zero bytes.
#[tactic(auto, unfolding(crate::specs::Memory::zeros))]
pub(crate) fn zeroed(alloc: Global, count: usize) -> Result<Vec<u8>, AllocError>
    ensures zero { IfOk result (λ bytes. bytes.items ≡ zeros count) }
    ensures len { IfOk result (λ bytes. length bytes.items ≡ count) }
{
    let bytes = vec![in alloc; 0u8; count]?;
    Ok(bytes)
}

/// Copies bytes in.
pub(crate) fn fill_part(memory: &mut [u8], at: usize, bytes: &[u8])
    requires { at + length bytes.now ≤ length memory.old }
    ensures { memory.new ≡ filled memory.old at bytes.now }
{
    memory[at..at + bytes.len()].copy_from_slice(bytes);
}

/// Sets bytes to zero.
pub(crate) fn clear_part(memory: &mut [u8], from: usize, len: usize)
    requires { from + len ≤ length memory.old }
    ensures { memory.new ≡ cleared memory.old from len }
{
    set_zero(&mut memory[from..from + len]);
}

/// Writes the lowest bytes of a number, the lowest first.
pub(crate) fn store_part(memory: &mut [u8], at: usize, width: usize, number: u64)
    requires { at + width ≤ length memory.old }
    ensures { memory.new ≡ filled memory.old at (bytes_of width number) }
{
    write_number(&mut memory[at..at + width], number);
}

#[tactic(auto, unfolding(crate::specs::Memory::zeros))]
fn set_zero(bytes: &mut [u8])
    ensures { bytes.new ≡ zeros (length bytes.old) }
{
    bytes.fill(0);
}

ghost use Rattle.std.specs.Prelude.{◌≡◌, ◌+◌, ◌≤◌, length, true, false, pos, Some, None, IfOk, IfSome, MatchOption};
ghost use Rattle.ib_mem.specs.Memory.{IsAccessWidth, zeros, can_access, loaded, stored, cleared, filled};

use crate::number::read_number;
use crate::parts::{clear_part, fill_part, store_part, zeroed};
use std::alloc::{AllocError, Global};
use std::marker::Model;

const SIZE: usize = 1_048_576;

/// Where the bytes begin that a program may read and write.
const FIRST: usize = 4096;

/// The memory of a program.
#[derive(Drop)]
pub struct Memory {
    bytes: Vec<u8>,
}

impl Model for Memory {
    ghost use Rattle.std.specs.Prelude.{◌≡◌, List, ℕ, length};

    ghost Value = { List ℕ };

    ghost view = { λ memory. memory.bytes.items };

    ghost invariant = { λ memory. length memory.bytes.items ≡ 1048576 };
}

impl Memory {
    /// A memory of zeros.
    pub fn new(alloc: Global) -> Result<Memory, AllocError>
        ensures { IfOk result (λ memory. memory ≡ zeros 1048576) }
    {
        let bytes = zeroed(alloc, SIZE)?;
        Ok(Memory { bytes })
    }

    /// The number at an address, or `None` where the access is not mapped or not aligned.
    pub fn load(&self, addr: i64, width: u8) -> Option<u64>
        requires { IsAccessWidth width }
        ensures { result ≡ loaded self.now addr width }
    {
        let at = place_of(addr, width)?;
        Some(read_number(&self.bytes[at..at + usize::from(width)]))
    }

    /// Writes the lowest bytes of a number, and answers whether the access is mapped and aligned.
    pub fn store(&mut self, addr: i64, width: u8, number: u64) -> bool
        requires { IsAccessWidth width }
        ensures done { result ≡ true → Some self.new ≡ stored self.old addr width number }
        ensures refused { result ≡ false → stored self.old addr width number ≡ None }
        ensures same { result ≡ false → self.new ≡ self.old }
    {
        match place_of(addr, width) {
            None => false,
            Some(at) => {
                store_part(self.bytes.as_mut_slice(), at, usize::from(width), number);
                true
            }
        }
    }

    /// Sets bytes to zero.
    pub fn clear(&mut self, from: u32, len: u32)
        requires { from + len ≤ 1048576 }
        ensures { self.new ≡ cleared self.old from len }
    {
        clear_part(self.bytes.as_mut_slice(), from as usize, len as usize);
    }

    /// Copies bytes in.
    pub fn fill(&mut self, at: u32, bytes: &[u8])
        requires { at + length bytes.now ≤ 1048576 }
        ensures { self.new ≡ filled self.old at bytes.now }
    {
        fill_part(self.bytes.as_mut_slice(), at as usize, bytes);
    }
}

fn place_of(addr: i64, width: u8) -> Option<usize>
    requires { IsAccessWidth width }
    ensures place { MatchOption result (can_access addr width ≡ false) (λ at. (can_access addr width ≡ true) × (addr ≡ pos at)) }
    ensures fits { IfSome result (λ at. at + width ≤ 1048576) }
{
    let at = usize::try_from(addr).ok()?;
    let width = usize::from(width);
    if at >= FIRST && at <= SIZE - width && at % width == 0 {
        Some(at)
    } else {
        None
    }
}

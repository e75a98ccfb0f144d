use ib_base::MemHost;
use std::alloc::Global;

/// What the rows call.
pub trait Command {
    /// Does what the words ask for, over a host, and gives the status.
    fn call(&self, alloc: Global, words: &[String], host: &mut MemHost) -> u8;
}

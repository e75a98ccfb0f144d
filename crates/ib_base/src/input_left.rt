ghost use Rattle.std.specs.Prelude.{◌≡◌, [], ◌∷◌, MatchOption, IfOk};

use crate::text::Text;
use std::alloc::{AllocError, Global};
use std::marker::Model;

/// An input that is read byte by byte, seen as the bytes that are left.
#[derive(Drop)]
pub(crate) struct InputLeft {
    bytes: Text,
    taken: usize,
}

impl Model for InputLeft {
    ghost use Rattle.std.specs.Prelude.{List, ℕ, drop};

    ghost Value = { List ℕ };

    ghost view = { λ input. drop input.taken input.bytes };
}

impl InputLeft {
    pub(crate) fn new(alloc: Global, bytes: &[u8]) -> Result<InputLeft, AllocError>
        ensures { IfOk result (λ input. input ≡ bytes.now) }
    {
        let bytes = Text::from_bytes(alloc, bytes)?;
        Ok(InputLeft { bytes, taken: 0 })
    }

    pub(crate) fn as_bytes(&self) -> &[u8]
        ensures { result.now ≡ self.now }
    {
        self.bytes.list().get(self.taken..).unwrap_or(&[])
    }

    /// Takes the first byte that is left.
    pub(crate) fn take(&mut self) -> Option<u8>
        ensures { MatchOption result ((self.old ≡ []) × (self.new ≡ [])) (λ first. self.old ≡ first ∷ self.new) }
    {
        match self.bytes.list().get(self.taken) {
            None => None,
            Some(first) => {
                let first = *first;
                self.taken += 1;
                Some(first)
            }
        }
    }
}

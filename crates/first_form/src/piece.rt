ghost use Rattle.std.specs.Prelude.{◌≡◌};

use std::marker::Model;

/// A piece of a source, which contracts see as its bytes.
#[derive(Drop)]
pub struct Piece<'a> {
    bytes: &'a [u8],
}

impl<'a> Model for Piece<'a> {
    ghost use Rattle.std.specs.Prelude.{List, ℕ};

    ghost Value = { List ℕ };

    ghost view = { λ piece. piece.bytes.now };
}

impl<'a> Piece<'a> {
    pub fn new(bytes: &'a [u8]) -> Piece<'a>
        ensures { result ≡ bytes.now }
    {
        Piece { bytes }
    }

    pub fn bytes(&self) -> &'a [u8]
        ensures { result.now ≡ self.now }
    {
        self.bytes
    }
}

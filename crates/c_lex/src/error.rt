ghost use Rattle.std.specs.Prelude.{◌≡◌};
ghost use Rattle.c_lex.specs.Lexing.{refusal};

use c_ast::LexFault;
use ib_base::Place;
use std::alloc::AllocError;
use thiserror::Error;

/// Why a source has no tokens, and where the first part of it stands that is none.
#[derive(Clone, Copy, PartialEq, Eq, Debug, Error)]
pub enum LexErr {
    #[error("{0}: no token begins with this byte")]
    BadByte(Place),
    #[error("{0}: this comment is not closed")]
    OpenComment(Place),
    #[error("{0}: this literal is ill-formed, not closed or too large")]
    BadLiteral(Place),
    #[error("there is not enough memory to read the source")]
    NoMemory,
}

impl LexErr {
    pub fn new(fault: LexFault, place: Place) -> LexErr
        ensures { result ≡ refusal fault place }
    {
        match fault {
            LexFault::BadByte => LexErr::BadByte(place),
            LexFault::OpenComment => LexErr::OpenComment(place),
            LexFault::BadLiteral => LexErr::BadLiteral(place),
        }
    }
}

impl From<AllocError> for LexErr {
    ghost use Rattle.c_lex.specs.declared.error.LexErr.TheVariants.{NoMemory};
    ghost use Rattle.std.specs.Prelude.{◌≡◌};

    ghost from_gives = { λ e r. r ≡ NoMemory };

    fn from(_e: AllocError) -> LexErr {
        LexErr::NoMemory
    }
}

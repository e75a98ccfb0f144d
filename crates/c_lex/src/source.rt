ghost use Rattle.std.specs.Prelude.{◌≡◌, ◌≤◌, length, List, IfOk, IfErr};
ghost use Rattle.c_ast.specs.Cut.{AreTokens, IsCut, start, Ending};
ghost use Rattle.c_ast.specs.declared.token.Token.{Token};
ghost use Rattle.c_lex.specs.Lexed.{Refuses, Answers, end_place};

use crate::error::LexErr;
use crate::lexer::{Lexer, place_past};
use c_ast::Token;
use ib_base::Place;
use sqlite_items::Items;
use std::alloc::Global;

/// Cuts a source into its tokens, in time and memory that are linear in its length.
pub fn lex(alloc: Global, bytes: &[u8]) -> Result<Items<Token>, LexErr>
    requires { length bytes.now ≤ 1048576 }
    ensures ok { IfOk result (AreTokens bytes.now) }
    ensures refused { IfErr result (Refuses bytes.now) }

    // Whatever the source can be cut into is what is answered, where memory is not wanting.
    ensures only { (tokens : List Token) (ending : Ending) → IsCut (start bytes.now) tokens ending →
        Answers result tokens ending }
{
    let mut lexer = Lexer::new(alloc, bytes);
    'pieces: while !lexer.is_over() {
        match lexer.advance(alloc) {
            Ok(next) => lexer = next,
            Err(e) => return Err(e),
        }
    }
    let Lexer { tokens, .. } = lexer;
    Ok(tokens)
}

/// The place just past the last byte.
pub fn end_place(bytes: &[u8]) -> Place
    requires { length bytes.now ≤ 1048576 }
    ensures { result ≡ end_place bytes.now }
{
    place_past(Place { line: 1, col: 1 }, bytes)
}

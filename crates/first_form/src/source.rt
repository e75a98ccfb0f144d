ghost use Rattle.std.specs.Prelude.{◌≡◌, ◌≤◌, length, IfOk, IsErrOf};
ghost use Rattle.first_form.specs.declared.program.Program.{Program};
ghost use Rattle.first_form.specs.FirstForm.{IsFirstForm};

use crate::error::ReadErr;
use crate::kind::Word;
use crate::program::Program;
use crate::reader::Reader;
use c_ast::Token;
use std::alloc::Global;

/// How many tokens a source in the first form may have.
const MOST_TOKENS: usize = 65536;

/// Reads a source in the first form from its tokens, in time that is linear in their number. The
/// source's bytes tell decimal numbers from others.
pub fn read(alloc: Global, source: &[u8], tokens: &[Token]) -> Result<Program, ReadErr>
    ensures ok { IfOk result (λ program. IsFirstForm source.now tokens.now program) }
    ensures only { IfOk result (λ program. (other : Program) →
        IsFirstForm source.now tokens.now other → other ≡ program) }
    ensures refused { IsErrOf result ReadErr.NotFirstForm → (program : Program) →
        IsFirstForm source.now tokens.now program → ⊥ }
{
    if MOST_TOKENS < tokens.len() {
        return Err(ReadErr::NotFirstForm);
    }
    let mut reader = Reader::new(alloc);
    for token in tokens {
        match reader.take(alloc, Word::new(source, token)) {
            Ok(next) => reader = next,
            Err(e) => return Err(e),
        }
    }
    reader.finish(alloc)
}

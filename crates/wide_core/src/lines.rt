ghost use Rattle.std.specs.Prelude.{◌≡◌, ℕ, ◌+◌, ◌≤◌, ◌^◌, length, MatchOption};
ghost use Rattle.wide_core.specs.Valid.{first_func_line, lines_of_func, lines_of_words, text_lines};

use crate::code::{RawCode, WideFunc, Word};

impl RawCode {
    /// How many lines the code's text has without notes, where a `u32` can hold it.
    pub fn text_lines(&self) -> Option<u32>
        ensures { MatchOption result (2 ^ 32 ≤ text_lines self.now) (λ lines. lines ≡ text_lines self.now) }
    {
        let image = u32::try_from(self.image.len().div_ceil(32)).ok()?;
        let mut lines = image.checked_add(6)?;
        for func in self.funcs.as_slice() {
            lines = behind_func(lines, func)?;
        }
        Some(lines)
    }
}

fn behind_func(lines: u32, func: &WideFunc) -> Option<u32>
    ensures { MatchOption result (2 ^ 32 ≤ lines + lines_of_func func.now) (λ behind. behind ≡ lines + lines_of_func func.now) }
{
    let mut behind = lines.checked_add(1)?;
    for word in func.words.as_slice() {
        behind = behind_word(behind, word)?;
    }
    Some(behind)
}

fn behind_word(lines: u32, word: &Word) -> Option<u32>
    ensures { MatchOption result (2 ^ 32 ≤ lines + (length word.now.ops + 1)) (λ behind. behind ≡ lines + (length word.now.ops + 1)) }
{
    let ops = u32::try_from(word.ops.len()).ok()?;
    lines.checked_add(ops)?.checked_add(1)
}

ghost use Rattle.std.specs.Prelude.{◌≡◌, ◌<◌, ◌∷◌, [], length, MatchOption};
ghost use Rattle.profile_text.specs.Lines.{parts};

/// What stands before the first separator, and what stands behind it; `None` where there is none.
pub fn cut(bytes: &[u8], separator: u8) -> Option<(&[u8], &[u8])>
    ensures { MatchOption result (parts separator bytes.now ≡ bytes.now ∷ []) (λ p. (parts separator bytes.now ≡ p.0.now ∷ parts separator p.1.now) × (length p.1.now < length bytes.now)) }
{
    for (at, byte) in bytes.iter().enumerate() {
        if *byte == separator {
            return Some((&bytes[..at], &bytes[at + 1..]));
        }
    }
    None
}

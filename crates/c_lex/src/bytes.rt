ghost use Rattle.std.specs.Prelude.{◌≡◌};
ghost use Rattle.c_ast.specs.Bytes.{is_blank, is_capital, is_digit, is_letter, is_word_byte, is_literal_byte};

pub fn is_blank_byte(b: u8) -> bool
    ensures { result ≡ is_blank b }
{
    b == b' ' || (9 <= b && b <= 13)
}

pub fn is_digit_byte(b: u8) -> bool
    ensures { result ≡ is_digit b }
{
    b'0' <= b && b <= b'9'
}

pub fn is_capital_byte(b: u8) -> bool
    ensures { result ≡ is_capital b }
{
    b'A' <= b && b <= b'Z'
}

pub fn is_letter_byte(b: u8) -> bool
    ensures { result ≡ is_letter b }
{
    is_capital_byte(b) || (b'a' <= b && b <= b'z') || b == b'_'
}

/// Names and numbers are made of these.
pub fn is_word(b: u8) -> bool
    ensures { result ≡ is_word_byte b }
{
    is_letter_byte(b) || is_digit_byte(b)
}

/// An element of a literal may be this byte by itself, but for the closing quote and `\`.
pub fn is_literal(b: u8) -> bool
    ensures { result ≡ is_literal_byte b }
{
    b == b'\t' || (32 <= b && b <= 126) || 128 <= b
}

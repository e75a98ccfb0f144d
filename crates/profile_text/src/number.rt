ghost use Rattle.std.specs.Prelude.{◌≡◌, ◌==◌, ◌+◌, ◌-◌, ◌*◌, nat_lt, length, true, if◌then◌else◌, Option, Some, None};
ghost use Rattle.std.specs.Char.{is_ascii_digit};
ghost use Rattle.std.specs.Str.{all_ascii_digits};
ghost use Rattle.profile_text.specs.Numbers.{digits_less, fits, number_from, number_of, is_number, is_short};

use std::marker::Model;

/// A number that a line spells in decimal without leading zeros. It has no bound.
#[derive(Drop)]
pub struct Number<'a> {
    digits: &'a [u8],
}

impl<'a> Model for Number<'a> {
    ghost use Rattle.std.specs.Prelude.{◌≡◌, ℕ, true};
    ghost use Rattle.profile_text.specs.Numbers.{is_number, number_from};

    ghost Value = { ℕ };

    ghost view = { λ number. number_from 0 number.digits.now };

    ghost invariant = { λ number. is_number number.digits.now ≡ true };
}

fn is_short(bytes: &[u8]) -> bool
    ensures { result ≡ is_short bytes.now }
{
    match bytes {
        [] => false,
        [_] => true,
        [first, ..] => *first != b'0',
    }
}

fn are_digits(bytes: &[u8]) -> bool
    ensures { result ≡ all_ascii_digits bytes.now }
{
    for byte in bytes {
        if !byte.is_ascii_digit() {
            return false;
        }
    }
    true
}

fn is_number(bytes: &[u8]) -> bool
    ensures { result ≡ is_number bytes.now }
{
    are_digits(bytes) && is_short(bytes)
}

fn more(value: u64, digit: u8) -> Option<u64>
    requires { is_ascii_digit digit ≡ true }
    ensures { result ≡ fits (10 * value + (digit - 48)) }
{
    value.checked_mul(10)?.checked_add(u64::from(digit - b'0'))
}

#[tactic(auto, using(crate::proofs::Numbers::fits_again))]
/// The number that digits spell, where 64 bits hold it.
fn value_of(digits: &[u8]) -> Option<u64>
    requires { all_ascii_digits digits.now ≡ true }
    ensures { result ≡ fits (number_from 0 digits.now) }
{
    let mut value: u64 = 0;
    for digit in digits {
        match more(value, *digit) {
            Some(next) => value = next,
            None => return None,
        }
    }
    Some(value)
}

/// Of digits of equal number, whether the first ones that differ rise.
fn is_less(left: &[u8], right: &[u8]) -> bool
    requires { length left.now ≡ length right.now }
    ensures { result ≡ digits_less left.now right.now }
{
    for (i, digit) in left.iter().enumerate() {
        if *digit != right[i] {
            return *digit < right[i];
        }
    }
    false
}

impl<'a> Number<'a> {
    pub fn read(bytes: &'a [u8]) -> Option<Number<'a>>
        ensures { result ≡ number_of bytes.now }
    {
        if is_number(bytes) {
            Some(Number { digits: bytes })
        } else {
            None
        }
    }

    /// The number, where 64 bits hold it.
    pub fn value(&self) -> Option<u64>
        ensures { result ≡ fits self.now }
    {
        value_of(self.digits)
    }

    pub fn is(&self, number: usize) -> bool
        ensures { result ≡ (self.now == number) }
    {
        match self.value() {
            Some(value) => value == number as u64,
            None => false,
        }
    }

    /// Compares without a bound: the number with fewer digits is less, and of as many the first that differ decide.
    pub fn is_less(&self, other: &Number) -> bool
        ensures { result ≡ nat_lt self.now other.now }
    {
        let digits = self.digits.len();
        let others = other.digits.len();
        digits < others || (digits == others && is_less(self.digits, other.digits))
    }
}

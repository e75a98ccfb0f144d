//! The values of options. No command takes them yet.

ghost use Rattle.std.specs.Prelude.{◌≡◌, ◌<◌, ◌^◌, ℕ, None, Some, IfSome, decimal};
ghost use Rattle.std.specs.Option.{option_copied};
ghost use Rattle.impactc_words.specs.Words.{IsCycles, IsMachine, machine_name};

use itoa::Buffer;

/// A machine that code can be made for.
#[derive(Clone, Copy, PartialEq, Eq, Debug)]
pub enum Which {
    Narrow,
    Four,
    Eight,
}

/// How many cycles code may run where no number is given.
const CYCLES: u64 = 100_000_000;

/// The greatest number of cycles that can be given.
const MOST_CYCLES: u64 = 1_000_000_000_000;

fn machine_named(name: &str) -> Option<Which>
    ensures some { IfSome result (λ machine. name.now ≡ machine_name machine) }
    ensures none { result ≡ None → (machine : Which) → name.now ≡ machine_name machine → ⊥ }
{
    if name == "narrow" {
        return Some(Which::Narrow);
    }
    if name == "four" {
        return Some(Which::Four);
    }
    if name == "eight" {
        return Some(Which::Eight);
    }
    None
}

/// The machine of the value of `--machine`.
pub fn machine_of(text: Option<&str>) -> Option<Which>
    ensures some { IfSome result (IsMachine (option_copied text.entry)) }
    ensures none { result ≡ None → (machine : Which) → IsMachine (option_copied text.entry) machine → ⊥ }
{
    match text {
        Some(name) => machine_named(name),
        None => Some(Which::Four),
    }
}

/// The number that a text is in decimal.
#[tactic(auto, using(crate::proofs::Numbers::same_number, crate::proofs::Numbers::no_number))]
fn number_of(text: &str) -> Option<u64>
    ensures some { IfSome result (λ number. (text.now ≡ decimal number) × (number < 2 ^ 64)) }
    ensures none { result ≡ None → (number : ℕ) → number < 2 ^ 64 → text.now ≡ decimal number → ⊥ }
{
    match text.parse::<u64>() {
        Ok(number) => {
            let mut buffer = Buffer::new();
            if buffer.format(number) == text {
                Some(number)
            } else {
                None
            }
        }
        Err(_) => None,
    }
}

/// The cycles of a text that is given.
fn cycles_in(text: &str) -> Option<u64>
    ensures some { IfSome result (IsCycles (Some text.now)) }
    ensures none { result ≡ None → (cycles : ℕ) → IsCycles (Some text.now) cycles → ⊥ }
{
    match number_of(text) {
        Some(number) => {
            if number >= 1 && number <= MOST_CYCLES {
                Some(number)
            } else {
                None
            }
        }
        None => None,
    }
}

/// The cycles of the value of `--cycles`.
pub fn cycles_of(text: Option<&str>) -> Option<u64>
    ensures some { IfSome result (IsCycles (option_copied text.entry)) }
    ensures none { result ≡ None → (cycles : ℕ) → IsCycles (option_copied text.entry) cycles → ⊥ }
{
    match text {
        Some(text) => cycles_in(text),
        None => Some(CYCLES),
    }
}

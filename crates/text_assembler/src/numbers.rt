//! Integers (6.3.1).

ghost use Rattle.std.specs.Prelude.{◌≡◌, ◌<◌, ◌≤◌, ◌^◌, true, IfSome};
ghost use Rattle.text_assembler.specs.Inside.Answers.{Finds};
ghost use Rattle.text_assembler.specs.Numbers.{with_digit, more_digits, number, small_number, negated, constant};

use crate::characters::digit;

// The number with one more digit.
#[tactic(auto, unfolding(crate::specs::Numbers::with_digit))]
fn with_digit(base: u8, number: u64, byte: u8) -> Option<u64>
    ensures { Finds (λ n. n) result (with_digit base number byte) }
{
    let value = digit(base, byte)?;
    let number = u128::from(base) * u128::from(number) + u128::from(value);
    if number < 1 << 64 {
        Some(number as u64)
    } else {
        None
    }
}

// The number that digits of this base give; `_` may be between two of them.
#[tactic(auto, unfolding(crate::specs::Numbers::more_digits))]
fn digits(base: u8, word: &[u8]) -> Option<u64>
    ensures { Finds (λ n. n) result (more_digits base 0 true word.now) }
{
    let mut number = 0u64;
    let mut due = true;
    let mut rest = word;
    while let [first, tail @ ..] = rest {
        if *first == b'_' {
            if due {
                return None;
            }
            due = true;
        } else {
            number = with_digit(base, number, *first)?;
            due = false;
        }
        rest = tail;
    }
    if due { None } else { Some(number) }
}

/// A number without a sign.
#[tactic(auto, unfolding(crate::specs::Numbers::number))]
pub fn number(word: &[u8]) -> Option<u64>
    ensures { Finds (λ n. n) result (number word.now) }
{
    let [first, second, rest @ ..] = word else {
        return digits(10, word);
    };
    if *first == b'0' && *second == b'x' {
        digits(16, rest)
    } else {
        digits(10, word)
    }
}

/// A number without a sign that has 32 bits.
#[tactic(auto, unfolding(crate::specs::Numbers::small_number))]
pub fn small_number(word: &[u8]) -> Option<u32>
    ensures { Finds (λ n. n) result (small_number word.now) }
{
    let value = number(word)?;
    if value < 1 << 32 {
        Some(value as u32)
    } else {
        None
    }
}

/// A constant of 32 bits, as its two's complement.
#[tactic(auto, unfolding(crate::specs::Numbers::constant, crate::specs::Numbers::small_number))]
pub fn constant32(word: &[u8]) -> Option<u32>
    ensures { Finds (λ n. n) result (constant 32 word.now) }
{
    let (first, rest) = word.split_first()?;
    if *first == b'+' {
        let value = number(rest)?;
        if value < 1 << 31 {
            Some(value as u32)
        } else {
            None
        }
    } else if *first == b'-' {
        let value = number(rest)?;
        if value <= 1 << 31 {
            Some(negated32(value as u32))
        } else {
            None
        }
    } else {
        small_number(word)
    }
}

// The two's complement of the number's negation.
fn negated32(number: u32) -> u32
    ensures { result ≡ negated 32 number }
{
    if number == 0 {
        0
    } else {
        u32::MAX - number + 1
    }
}

fn negated64(number: u64) -> u64
    ensures { result ≡ negated 64 number }
{
    if number == 0 {
        0
    } else {
        u64::MAX - number + 1
    }
}

/// A constant of 64 bits, as its two's complement.
#[tactic(auto, unfolding(crate::specs::Numbers::constant))]
pub fn constant64(word: &[u8]) -> Option<u64>
    ensures { Finds (λ n. n) result (constant 64 word.now) }
{
    let (first, rest) = word.split_first()?;
    if *first == b'+' {
        let value = number(rest)?;
        if value < 1 << 63 { Some(value) } else { None }
    } else if *first == b'-' {
        let value = number(rest)?;
        if value <= 1 << 63 {
            Some(negated64(value))
        } else {
            None
        }
    } else {
        number(word)
    }
}

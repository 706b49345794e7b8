ghost use Rattle.std.specs.Prelude.{◌≡◌, ℕ, ◌+◌, ◌^◌, ◌<◌, ◌≤◌, true, length, IfSome};
ghost use Rattle.lines.specs.Views.{number_and_part};
ghost use Rattle.lines.specs.Numbers.{all_digits, natural, value_after, number_of, in_range_of, first_of, numbers_of};

use std::ops::Range;
use tables::line::cut_at;

// A number of a task text; one of more than nine digits lies in no range.
#[derive(Clone, Copy)]
pub enum Number {
    MinusOne,
    Value(usize),
    TooLong,
}

// Whether the bytes are digits without a needless zero.
fn is_natural(bytes: &[u8]) -> bool
    ensures { natural bytes.now ≡ result }
{
    match bytes {
        [] => false,
        [b'0', _, ..] => false,
        _ => bytes.iter().all(u8::is_ascii_digit),
    }
}

// The value of at most nine digits.
fn value(digits: &[u8]) -> usize
    requires { (length digits.now ≤ 9) × (all_digits digits.now ≡ true) }
    ensures { value_after 0 digits.now ≡ result }
{
    // A fold would owe at each digit that the sum fits, of which only an invariant over the digits so far can speak.
    let mut value: usize = 0;
    for b in digits {
        value = value * 10 + usize::from(*b - b'0');
    }
    value
}

impl Number {
    // The number that the bytes write.
    #[tactic(auto, unfolding(crate::specs::Numbers::number_of))]
    pub fn parse(bytes: &[u8]) -> Option<Number>
        ensures { number_of bytes.now ≡ result }
    {
        if bytes == b"-1".as_slice() {
            return Some(Number::MinusOne);
        }
        if !is_natural(bytes) {
            return None;
        }
        if bytes.len() > 9 {
            return Some(Number::TooLong);
        }
        Some(Number::Value(value(bytes)))
    }

    // The number where it lies in the range.
    pub fn within(self, range: Range<usize>) -> Option<usize>
        ensures reads { in_range_of range.start range.end self ≡ result }
        ensures range { IfSome result (λ n. (range.start ≤ n) × (n < range.end)) }
    {
        match self {
            Number::Value(n) if range.contains(&n) => Some(n),
            _ => None,
        }
    }
}

// The number before the first space, and what follows the space.
fn first_number(line: &[u8]) -> Option<(Number, &[u8])>
    ensures { first_of line.now ≡ number_and_part result }
{
    let (word, rest) = cut_at(line, b' ')?;
    Some((Number::parse(word)?, rest))
}

// The numbers of a line, one space between two; none where it does not hold just as many.
pub fn numbers<const N: usize>(line: &[u8]) -> Option<[Number; N]>
    ensures { numbers_of N line.now ≡ result }
{
    let mut found = [Number::TooLong; N];
    let (last, earlier) = found.split_last_mut()?;
    let mut rest = line;
    for number in earlier.iter_mut() {
        (*number, rest) = first_number(rest)?;
    }
    *last = Number::parse(rest)?;
    Some(found)
}

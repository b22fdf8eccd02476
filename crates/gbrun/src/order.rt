//! The word of `--order`.
ghost use Rattle.std.specs.Prelude.{◌≡◌};
ghost use Rattle.std.specs.Char.{is_ascii_digit};
ghost use Rattle.std.specs.List.{list_all};
ghost use Rattle.gbrun.specs.Orders.{order_of, seed_of};

use desk::Order;

// 2^64 - 1 has as many digits.
const MOST_DIGITS: usize = 20;

/// The order that a word names, if it names one.
pub fn order_named(word: &str) -> Option<Order>
    ensures { result ≡ order_of word.now }
{
    match word {
        "first" => Some(Order::First),
        "last" => Some(Order::Last),
        _ => {
            let digits = word.strip_prefix("seed:")?;
            Some(Order::Seed(seed(digits)?))
        }
    }
}

fn seed(digits: &str) -> Option<u64>
    ensures { result ≡ seed_of digits.now }
{
    if !is_digits(digits) || digits.len() > MOST_DIGITS {
        return None;
    }
    digits.parse().ok()
}

fn is_digits(text: &str) -> bool
    ensures { result ≡ list_all is_ascii_digit text.now }
{
    text.as_bytes().iter().all(|byte| byte.is_ascii_digit())
}

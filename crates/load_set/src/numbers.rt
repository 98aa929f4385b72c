//! The number of a load, as a word says it.
ghost use Rattle.std.specs.Prelude.{◌≡◌, ◌≢◌, ◌<◌, ◌^◌, ℕ, MatchOption, decimal};

use itoa::Buffer;

/// The number that a word says in decimal, without sign and without leading zeros; `None` where it is no such word of a
/// number below 2^64.
///
/// Example: `number_of("12")` is `Some(12)`, and `number_of("012")` is `None`.
pub fn number_of(word: &str) -> Option<u64>
    ensures { MatchOption result ((n : ℕ) → n < 2 ^ 64 → word.now ≢ decimal n)
        (λ n. word.now ≡ decimal n) }
{
    let Ok(n) = word.parse::<u64>() else {
        return None;
    };
    let mut buffer = Buffer::new();
    if buffer.format(n) == word {
        Some(n)
    } else {
        None
    }
}

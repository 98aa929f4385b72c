//! The words of a command line, after the program's name.
ghost use Rattle.std.specs.Prelude.{◌≡◌, ℕ, MatchOption};
ghost use Rattle.sim_commands.specs.Sim as commands;

use load_set::number_of;

/// Whether the words are those of the command `sim`.
pub(crate) fn is_sim(words: &[String]) -> bool
    ensures { result ≡ commands.is_sim words.now }
{
    match words {
        [word] => word.as_str() == "sim",
        _ => false,
    }
}

/// The number of a load, where the words are those of the command `load`.
pub(crate) fn load_number(words: &[String]) -> Option<u64>
    ensures { MatchOption result ((n : ℕ) → ¬ (commands.IsLoad words.now n))
        (λ n. commands.IsLoad words.now n) }
{
    match words {
        [word, number] if word.as_str() == "load" => number_of(number.as_str()),
        _ => None,
    }
}

/// Whether the words are those of the command `upgrade`.
pub(crate) fn is_upgrade(words: &[String]) -> bool
    ensures { result ≡ commands.is_upgrade words.now }
{
    match words {
        [word] => word.as_str() == "upgrade",
        _ => false,
    }
}

/// Whether the words are those of the command `check`.
pub(crate) fn is_check(words: &[String]) -> bool
    ensures { result ≡ commands.is_check words.now }
{
    match words {
        [word] => word.as_str() == "check",
        _ => false,
    }
}

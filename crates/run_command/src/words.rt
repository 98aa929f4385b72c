//! The words of a command line, after the program's name.
ghost use Rattle.std.specs.Prelude.{◌≡◌};
ghost use Rattle.run_command.specs.Run as commands;

/// Whether the words are those of the command `run`.
pub(crate) fn is_run(words: &[String]) -> bool
    ensures { result ≡ commands.is_run words.now }
{
    match words {
        [word] => word.as_str() == "run",
        _ => false,
    }
}

/// Whether the words are those of the command `split`.
pub(crate) fn is_split(words: &[String]) -> bool
    ensures { result ≡ commands.is_split words.now }
{
    match words {
        [word] => word.as_str() == "split",
        _ => false,
    }
}

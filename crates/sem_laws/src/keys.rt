//! The keys with which tasks asked.
ghost use Rattle.std.specs.Prelude.{◌≡◌};
ghost use Rattle.sem_laws.specs.KeptKeys.{key_at};

use rt_rules::Key;

/// The key at a position, or the highest of all past the end.
pub fn key_in(keys: &[Key], position: u32) -> Key
    ensures { result ≡ key_at keys.now position }
{
    keys.get(position as usize).copied().unwrap_or(Key {
        band: 0,
        major: 0,
        minor: 0,
    })
}

//! Numbers that look as if by chance, and are the same in each run.
ghost use Rattle.std.specs.Prelude.{◌≡◌, ◌+◌, ◌*◌, ◌%◌, ◌^◌};

/// The next of a row of numbers without an order (Knuth, MMIX).
pub(crate) fn next(seed: u64) -> u64
    ensures { result ≡ (seed * 6364136223846793005 + 1442695040888963407) % 2 ^ 64 }
{
    seed.wrapping_mul(6364136223846793005)
        .wrapping_add(1442695040888963407)
}

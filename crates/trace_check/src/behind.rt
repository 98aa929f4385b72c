//! How far texts are alike.
ghost use Rattle.std.specs.Prelude.{◌≡◌};
ghost use Rattle.trace_check.specs.LinesAlike as alike;

/// How many lines, each with its line feed, two texts have alike at their beginning.
pub(crate) fn lines_alike(a: &[u8], b: &[u8]) -> usize
    ensures { result ≡ alike.lines_alike a.now b.now }
{
    let mut count = 0;
    for (i, c) in a.iter().enumerate() {
        if i >= b.len() || b[i] != *c {
            return count;
        }
        if *c == b'\n' {
            count += 1;
        }
    }
    count
}

//! Numbers that are drawn.
ghost use Rattle.std.specs.Prelude.{◌≡◌};
ghost use Rattle.load_set.specs.Draws as draws;

/// The four numbers that are drawn for a task.
#[derive(Clone, Copy)]
pub(crate) struct Drawn {
    pub period: u64,
    pub cost: u64,
    pub locks: u64,
    pub sem: u64,
}

#[tactic(auto, unfolding(crate::specs::Draws::drawn))]
fn next(state: u64) -> u64
    ensures { result ≡ draws.drawn state }
{
    state
        .wrapping_mul(6_364_136_223_846_793_005)
        .wrapping_add(1_442_695_040_888_963_407)
}

#[tactic(auto, unfolding(crate::specs::Draws::upper))]
fn upper(state: u64) -> u64
    ensures { result ≡ draws.upper state }
{
    state >> 32
}

/// Draws four numbers; the second part is the state after them.
pub(crate) fn draw(state: u64) -> (Drawn, u64)
    ensures numbers { result.0 ≡ draws.draw_from state }
    ensures state { result.1 ≡ draws.after_four state }
{
    let first = next(state);
    let second = next(first);
    let third = next(second);
    let fourth = next(third);
    let drawn = Drawn {
        period: upper(first),
        cost: upper(second),
        locks: upper(third),
        sem: upper(fourth),
    };
    (drawn, fourth)
}

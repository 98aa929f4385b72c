//! How far one processor is in its turns.
ghost use Rattle.std.specs.Prelude.{◌≡◌, ◌⊎◌, ℕ, true, false, None, Some, MatchOption};
ghost use Rattle.rt_task.specs.declared.Step as steps;
ghost use Rattle.body_play.specs.Turn as words;
ghost use Rattle.body_play.specs.Turn.{Begins, GoesOn};

use rt_base::{CpuNo, MOST_TURN_ACTS, Tick};
use rt_task::{Act, Step};

/// How many turns a processor has begun, how many steps it took since its newest Tick, and whether
/// its next act was none after its last step, or after a later entry of its group.
#[derive(Clone, Copy, PartialEq, Eq)]
pub(crate) struct Turn {
    begun: u64,
    since: u32,
    had_none: bool,
}

fn is_act(found: Option<Act>, act: Act) -> bool
    ensures same { result ≡ true → found ≡ Some act }
    ensures other { result ≡ false → found ≡ Some act → ⊥ }
{
    found == Some(act)
}

impl Turn {
    /// Where the processor's next act was not yet looked at since its last step.
    fn stepped(begun: u64, since: u32) -> Turn
        ensures { result ≡ words.stepped begun since }
    {
        Turn {
            begun,
            since,
            had_none: false,
        }
    }

    /// Before its first turn.
    pub(crate) fn before_all() -> Turn
        ensures { result ≡ words.stepped 0 0 }
    {
        Turn::stepped(0, 0)
    }

    /// The act that goes on with the turn, where `next` is the processor's next act.
    fn act_on(self, next: Option<Act>) -> Option<Act>
        ensures { result ≡ words.act_on self next }
    {
        if self.since == 0 {
            Some(Act::Irq)
        } else if self.since > MOST_TURN_ACTS {
            None
        } else {
            next
        }
    }

    /// Whether the step goes on with the turn.
    fn goes_on(self, step: Step, next: Option<Act>) -> bool
        ensures on { result ≡ true → GoesOn self next step }
        ensures other { result ≡ false → GoesOn self next step → ⊥ }
    {
        self.begun > 0 && step.tick.0 == self.begun - 1 && is_act(self.act_on(next), step.act)
    }

    /// Whether no turn is under way.
    fn is_between(self) -> bool
        ensures { result ≡ words.is_between self }
    {
        let is_full = self.since > MOST_TURN_ACTS;
        self.begun == 0 || (self.since > 0 && (is_full || self.had_none))
    }

    /// Whether the step begins the next of `horizon` turns.
    fn begins(self, step: Step, horizon: u64) -> bool
        ensures on { result ≡ true → Begins self horizon step }
        ensures other { result ≡ false → Begins self horizon step → ⊥ }
    {
        is_act(Some(step.act), Act::Tick)
            && step.tick.0 == self.begun
            && self.is_between()
            && self.begun < horizon
    }

    /// The step of `cpu` that may come next: the Tick of its next turn, or the step that goes on with the turn.
    pub(crate) fn next_step(self, cpu: CpuNo, is_tick: bool, next: Option<Act>) -> Option<Step>
        ensures on { (s : steps.Step) → s.cpu ≡ cpu → is_tick ≡ false → GoesOn self next s
            → result ≡ Some s }
        ensures begins { (s : steps.Step) (horizon : ℕ) → s.cpu ≡ cpu → is_tick ≡ true
            → Begins self horizon s → result ≡ Some s }
        ensures own { (s : steps.Step) → result ≡ Some s → s.cpu ≡ cpu }
    {
        let (tick, act) = if is_tick {
            (self.begun, Act::Tick)
        } else {
            (self.begun.checked_sub(1)?, self.act_on(next)?)
        };
        Some(Step {
            cpu,
            tick: Tick(tick),
            act,
        })
    }

    /// What comes of a step, where that may come next.
    pub(crate) fn after(self, step: Step, next: Option<Act>, horizon: u64) -> Option<Turn>
        ensures { MatchOption result
            ((GoesOn self next step ⊎ Begins self horizon step) → ⊥)
            (λ t. words.IsTaken self next horizon step t) }
    {
        if self.goes_on(step, next) {
            return Some(Turn::stepped(self.begun, self.since + 1));
        }
        if self.begins(step, horizon) {
            return Some(Turn::stepped(self.begun + 1, 0));
        }
        None
    }

    /// After an entry of the group: whether the processor's next act is none then.
    pub(crate) fn seen(self, is_none: bool) -> Turn
        ensures { result ≡ words.seen self is_none }
    {
        Turn {
            had_none: self.had_none || is_none,
            ..self
        }
    }

    /// Whether a look can change what comes next: not before the turn's interrupt, nor once it has had all its acts, nor where
    /// the next act was none before.
    pub(crate) fn awaits_look(self) -> bool
        ensures { result ≡ words.awaits_look self }
    {
        self.since > 0 && self.since <= MOST_TURN_ACTS && !self.had_none
    }

    /// Whether all `horizon` turns were played.
    pub(crate) fn has_ended(self, horizon: u64) -> bool
        ensures { result ≡ words.has_ended self horizon }
    {
        self.is_between() && self.begun >= horizon
    }
}

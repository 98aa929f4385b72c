//! The laws of body runs that need no more than the definitions. Each function has a law as its contract, and does nothing.
#![tactic(auto)]

ghost use Rattle.body_laws.specs.TurnLaws.{TurnsTakeInterrupts, TurnsBlockAtMost};

/// In a body run each accepted Lock comes where no interrupt is pending at its processor.
pub fn turns_take_interrupts()
    ensures { TurnsTakeInterrupts }
{}

/// So in a body run a job under PCP is blocked by at most one critical section of lower tasks, and one more for each that waited.
pub fn turns_block_at_most()
    ensures { TurnsBlockAtMost }
{}

//! The next act of a processor in a body run.
//!
//! A body run gives no steps: each processor does the operations of the jobs that it runs, one after another, and takes its
//! interrupts in between.
#![tactic(auto)]

ghost use Rattle.std.specs.Prelude.{◌≡◌, ◌-◌, ◌&&◌, ℕ, not, is_some};
ghost use Rattle.rt_model.specs.Group.{Group};
ghost use Rattle.rt_model.specs.Situations as situations;
ghost use Rattle.rt_plays.specs.Plays.{group_with};
ghost use Rattle.body_play.specs.inside.Operations as operations;

mod turn;
mod turns;

use rt_base::TaskNo;
use rt_rules::Situation;
use rt_task::{Act, Op, Setup, Task};
pub use turns::Turns;

fn operation_at(tasks: &[Task], runs: TaskNo, at: u32) -> Option<Op>
    ensures { result ≡ operations.operation_at tasks.now runs.0 at }
{
    let position = runs.0.saturating_sub(1) as usize;
    if position < tasks.len() {
        tasks[position].body.as_slice().get(at as usize).copied()
    } else {
        None
    }
}

fn waits(s: &Situation, op: Op) -> bool
    ensures { result ≡ operations.waits s.now op }
{
    match op {
        Op::Work => s.worked || !s.budget,
        _ => false,
    }
}

#[tactic(auto, using(crate::proofs::ActLaws::act_laws))]
fn act_of(s: &Situation, op: Option<Op>) -> Option<Act>
    ensures { (g : Group) → result ≡ situations.next_op g s.now op }
{
    match op {
        None => None,
        Some(op) => {
            if waits(s, op) {
                None
            } else {
                Some(Act::Do(op))
            }
        }
    }
}

#[tactic(auto, using(crate::proofs::ActLaws::act_laws))]
fn act_of_job(tasks: &[Task], s: &Situation) -> Option<Act>
    ensures { (g : Group) → g.setup.tasks ≡ tasks.now
        → result ≡ situations.next_of g s.now s.now.runs }
{
    match s.runs {
        Some(runs) => act_of(s, operation_at(tasks, runs, s.at)),
        None => None,
    }
}

fn takes_interrupt(s: &Situation) -> bool
    ensures { result ≡ (s.now.pending && not (is_some s.now.runs && s.now.np)) }
{
    s.pending && !(s.runs.is_some() && s.np)
}

/// The next act of a processor of the set in this situation, in a body run.
///
/// An interrupt is taken where one is pending and what runs, if anything, can be preempted. Else the running job's next
/// operation is done. It is `None` where nothing runs, where that operation is Work and the processor has worked at this
/// clock or the reservation has no budget left, and where the body has no operation at that position.
///
/// Example: where task 1 runs, has done nothing, and no interrupt is pending, the first operation of its body is next.
pub fn next_act(setup: &Setup, s: &Situation) -> Option<Act>
    ensures { (n : ℕ) → result ≡ situations.next_act (group_with setup.now n) s.now }
{
    if takes_interrupt(s) {
        Some(Act::Irq)
    } else {
        act_of_job(setup.parts().tasks.as_slice(), s)
    }
}

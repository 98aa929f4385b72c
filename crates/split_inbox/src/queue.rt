//! A semaphore of either kind.
ghost use Rattle.std.specs.Prelude.{◌≡◌, ◌<◌, ◌^◌, ◌↔◌, [], false, length, Some, None, IfOk};
ghost use Rattle.rt_base.specs.TaskNos.{number_of_task};
ghost use Rattle.rt_rules.specs.Mpcp.{after_ask, passed_on};
ghost use Rattle.rt_rules.specs.Numbers.{has, is};
ghost use Rattle.split_rules.specs.SemHistories.{nobody, outcome};
ghost use Rattle.split_inbox.specs.Books.{next_by};
ghost use Rattle.split_inbox.specs.Queues.{rule_of, state_of, IsRoomFor};

use crate::subject::SemRule;
use fmlp_sem::FmlpSem;
use mpcp_sem::MpcpSem;
use rt_base::{Ask, NoMemory, TaskNo};
use rt_rules::Key;
use std::alloc::Global;

/// A semaphore of either kind.
#[derive(Drop)]
pub(crate) enum Queue {
    Fmlp(FmlpSem),
    Mpcp(MpcpSem),
}

/// A semaphore that nobody holds, for the tasks with these priorities. No later call takes memory.
pub(crate) fn new_queue(alloc: Global, rule: SemRule, prios: &[u32]) -> Result<Queue, NoMemory>
    requires { length prios.now < 2 ^ 32 }
    ensures rule { IfOk result (λ q. rule_of q ≡ rule) }
    ensures free { IfOk result (λ q. state_of q ≡ nobody) }
    ensures room { IfOk result (λ q. IsRoomFor prios.now q) }
{
    let room = prios.len() as u32;
    match rule {
        SemRule::Fmlp => Ok(Queue::Fmlp(FmlpSem::new(alloc, room)?)),
        SemRule::Mpcp => Ok(Queue::Mpcp(MpcpSem::new(alloc, room)?)),
    }
}

/// The task asks for the semaphore.
pub(crate) fn ask(queue: &mut Queue, prios: &[u32], task: TaskNo) -> Ask
    requires room { IsRoomFor prios.now queue.old }
    requires below { task.0 < length prios.now }
    requires free_hands { is task.0 (state_of queue.old).holder ≡ false }
    requires outside { has task.0 (state_of queue.old).waiting ≡ false }
    ensures rule { rule_of queue.new ≡ rule_of queue.old }
    ensures room { IsRoomFor prios.now queue.new }
    ensures after { state_of queue.new ≡
        after_ask task.0 (state_of queue.old).holder (state_of queue.old) }
    ensures answer { result ≡ outcome (state_of queue.old).holder }
{
    let key = Key {
        band: 2,
        major: u64::from(prios[task.0 as usize]),
        minor: task.0,
    };
    match queue {
        Queue::Fmlp(sem) => sem.ask(task, key),
        Queue::Mpcp(sem) => sem.ask(task, key),
    }
}

/// The task, which holds the semaphore, frees it. The answer is the next task that holds it.
pub(crate) fn release(queue: &mut Queue, prios: &[u32], task: TaskNo) -> Option<TaskNo>
    requires room { IsRoomFor prios.now queue.old }
    requires holds { (state_of queue.old).holder ≡ Some task.0 }
    ensures rule { rule_of queue.new ≡ rule_of queue.old }
    ensures room { IsRoomFor prios.now queue.new }
    ensures after { state_of queue.new ≡
        passed_on (next_by (rule_of queue.old) prios.now (state_of queue.old).waiting)
        (state_of queue.old).waiting }
    ensures nobody { (result ≡ None) ↔ ((state_of queue.old).waiting ≡ []) }
    ensures next { number_of_task result ≡
        next_by (rule_of queue.old) prios.now (state_of queue.old).waiting }
{
    let _ = prios;
    match queue {
        Queue::Fmlp(sem) => sem.release(task),
        Queue::Mpcp(sem) => sem.release(task),
    }
}

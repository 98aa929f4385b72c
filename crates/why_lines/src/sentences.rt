//! The sentences that explain replies.
ghost use Rattle.std.specs.Prelude.{◌≡◌};
ghost use Rattle.why_texts.specs.Sentences as texts;

use rt_rules::Reply;

/// The sentence that explains a reply.
pub(crate) fn sentence(reply: Reply) -> &'static [u8]
    ensures { result.now ≡ texts.sentence reply }
{
    match reply {
        Reply::Done => b"accepted",
        Reply::Granted => b"accepted: the semaphore is its from now on",
        Reply::Queued => b"accepted: it waits for the semaphore, and the processor runs nothing",
        Reply::Runs(_) => b"accepted: the processor runs its link from now on",
        Reply::Idles => b"accepted: the processor has no link, and runs nothing from now on",
        Reply::Quiet => b"refused: what the processor runs is its link",
        Reply::Deferred => b"refused: what the processor runs is non-preemptive",
        Reply::Idle => b"refused: the processor runs nothing",
        Reply::Spent => b"refused: the processor has done a unit at this clock",
        Reply::NoBudget => b"refused: no budget is left in the reservation",
        Reply::NotDeclared => b"refused: the task does not declare the semaphore",
        Reply::Nested => b"refused: beside what the job holds it may not ask for the semaphore",
        Reply::NotHeld => b"refused: the task does not hold the semaphore",
        Reply::NotLast => b"refused: another semaphore was granted later, and is given back first",
        Reply::Holding => b"refused: the job holds a semaphore",
        Reply::InNp => b"refused: the job is non-preemptive",
        Reply::NotInNp => b"refused: the job is not non-preemptive",
        Reply::TooEarly => {
            b"refused: before the phase, or less than a period after the last arrival"
        }
        Reply::NotSporadic => b"refused: the task is periodic",
    }
}

//! The words of an act and of its reply.
ghost use Rattle.std.specs.Prelude.{◌≡◌, ◌++◌, OnOk};
ghost use Rattle.trace_lines.specs.Words.{further};
ghost use Rattle.trace_lines.specs.Known.{known_in};
ghost use Rattle.trace_lines.specs.Grammar.{act_words, reply_words};

use crate::Format;
use crate::acts::put_act;
use crate::put::put;
use crate::replies::put_reply;
use rt_rules::Reply;
use rt_task::{Act, Op};
use std::alloc::AllocError;

/// The words of an act and of its reply, each after a space. Those that most entries have are put at once.
#[tactic(auto, using(std::proofs::Common::append_assoc))]
#[inline(always)]
pub(crate) fn put_act_and_reply(
    out: &mut Vec<u8>,
    format: &Format,
    act: Act,
    reply: Reply,
) -> Result<(), AllocError>
    ensures { let k = known_in format.now in OnOk result (out.new.items
        ≡ out.old.items ++ (further 32 (act_words k act) ++ further 32 (reply_words k reply))) }
{
    match (act, reply) {
        (Act::Do(Op::Work), Reply::Done) => put(out, b" work done"),
        (Act::Do(Op::Work), Reply::Idle) => put(out, b" work idle"),
        (Act::Do(Op::Work), Reply::Spent) => put(out, b" work spent"),
        (Act::Do(Op::End), Reply::Done) => put(out, b" end done"),
        (Act::Do(Op::End), Reply::Idle) => put(out, b" end idle"),
        (Act::Do(Op::NpOn), Reply::Done) => put(out, b" npon done"),
        (Act::Do(Op::NpOff), Reply::Done) => put(out, b" npoff done"),
        (Act::Irq, Reply::Quiet) => put(out, b" irq quiet"),
        (Act::Tick, Reply::Done) => put(out, b" tick done"),
        _ => {
            put_act(out, format, act)?;
            put_reply(out, format, reply)
        }
    }
}

//! The posters of a processor, which count what they post while its seat is there.
ghost use Rattle.std.specs.Prelude.{◌≡◌, [], All, IfOk};

use part_seat::Sender;
use rt_base::NoMemory;
use split_inbox::{Names, Poster};
use std::alloc::Global;

/// The senders of posters that have posted nothing.
pub(crate) fn senders_of<N: Names>(
    alloc: Global,
    posters: Vec<Poster<N>>,
) -> Result<Vec<Sender<N>>, NoMemory>
    requires { All (λ b. b.posted ≡ []) posters.items }
    ensures { IfOk result (λ v. v.items ≡ posters.items) }
{
    let mut senders = Vec::new(alloc);
    for poster in posters {
        senders.push(Sender::new(poster))?;
    }
    Ok(senders)
}

/// The posters of senders.
pub(crate) fn posters_of<N: Names>(
    alloc: Global,
    senders: Vec<Sender<N>>,
) -> Result<Vec<Poster<N>>, NoMemory>
    ensures { IfOk result (λ v. v.items ≡ senders.items) }
{
    let mut posters = Vec::new(alloc);
    for sender in senders {
        posters.push(sender.into_poster())?;
    }
    Ok(posters)
}

//! The lines of the requests of a group, compared with those that stand in a text.
ghost use Rattle.std.specs.Prelude.{◌≡◌, IfOk};
ghost use Rattle.block_counts.specs.SeenWords.{tallies_of};
ghost use Rattle.trace_lines.specs.Known.{known_of};
ghost use Rattle.trace_check.specs.inside.RequestLines.{HaveStood, request_lines};

use crate::lines::{begins_with, make_block_line};
use block_counts::Seen;
use rt_base::NoMemory;
use rt_task::Setup;
use trace_lines::Version;

/// How many lines of requests stand first in a text, and how many bytes they have.
#[derive(Clone, Copy, PartialEq, Eq)]
pub(crate) struct Stood {
    pub(crate) count: usize,
    pub(crate) length: usize,
}

/// How far the lines of the requests stand first in the text, each made in `line`.
pub(crate) fn stood_first(
    version: Version,
    setup: &Setup,
    requests: &[Seen],
    text: &[u8],
    line: &mut Vec<u8>,
) -> Result<Stood, NoMemory>
    ensures { IfOk result (HaveStood (known_of version setup.now)
        (request_lines (tallies_of requests.now)) text.now) }
{
    let mut size = 0;
    for k in 0..requests.len() {
        make_block_line(line, version, setup, &requests[k])?;
        let made = line.as_slice();
        if !begins_with(&text[size..], made) {
            return Ok(Stood {
                count: k,
                length: size,
            });
        }
        size += made.len();
    }
    Ok(Stood {
        count: requests.len(),
        length: size,
    })
}

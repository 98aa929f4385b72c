//! What one job has come to.
ghost use Rattle.std.specs.Prelude.{◌≡◌, ◌<◌, ◌≤◌, OnOk, true};
ghost use Rattle.rt_base.specs.declared.TheConstants.{MOST_STEPS, TICK_END};
ghost use Rattle.trace_views.specs.JobCounts.{is_elsewhere};
ghost use Rattle.job_facts.specs.Deeds as deeds;
ghost use Rattle.job_facts.specs.Tallies.{nothing};
ghost use Rattle.job_views.specs.inside.Times.{IsLow};

use rt_base::NoMemory;
use std::alloc::Global;

/// One job so far: the clocks of its first and its newest unit and of its end, the processor of its newest unit, its counts, and
/// the positions of its requests among those of the group.
#[derive(Drop)]
pub(crate) struct JobTally {
    pub(crate) start: Option<u64>,
    pub(crate) unit: Option<u64>,
    pub(crate) end: Option<u64>,
    pub(crate) last_cpu: Option<u32>,
    pub(crate) units: u32,
    pub(crate) preemptions: u32,
    pub(crate) migrations: u32,
    pub(crate) moves: u32,
    pub(crate) requests: Vec<u32>,
    pub(crate) queued: u32,
    ghost unit_in_time: { IsLow unit },
    ghost end_in_time: { IsLow end },
}

/// Whether this is a processor, and another one than that.
pub(crate) fn is_elsewhere(cpu: u32, last_cpu: Option<u32>) -> bool
    ensures { result ≡ is_elsewhere cpu last_cpu }
{
    match last_cpu {
        Some(other) => other != cpu,
        None => false,
    }
}

impl JobTally {
    ghost use Rattle.job_views.specs.Told.{tally_of};

    /// A job that has not begun.
    pub(crate) fn new(alloc: Global) -> JobTally
        ensures { tally_of result ≡ nothing }
    {
        JobTally {
            start: None,
            unit: None,
            end: None,
            last_cpu: None,
            units: 0,
            preemptions: 0,
            migrations: 0,
            moves: 0,
            requests: Vec::new(alloc),
            queued: 0,
        }
    }

    /// A processor takes the job up that is not the one which did so last.
    pub(crate) fn move_on(&mut self)
        requires { self.old.moves ≤ MOST_STEPS }
        ensures { tally_of self.new ≡ deeds.moved true (tally_of self.old) }
    {
        self.moves += 1;
    }

    /// The job does a unit.
    pub(crate) fn work(&mut self, clock: u64, cpu: u32)
        requires clock { clock < TICK_END }
        requires units { self.old.units ≤ MOST_STEPS }
        requires migrations { self.old.migrations ≤ MOST_STEPS }
        ensures { tally_of self.new ≡ deeds.worked true clock cpu (tally_of self.old) }
    {
        if self.start.is_none() {
            self.start = Some(clock);
        }
        if is_elsewhere(cpu, self.last_cpu) {
            self.migrations += 1;
        }
        self.unit = Some(clock);
        self.last_cpu = Some(cpu);
        self.units += 1;
    }

    /// A processor that the job has worked on leaves it.
    pub(crate) fn preempt(&mut self)
        requires { self.old.preemptions ≤ MOST_STEPS }
        ensures { tally_of self.new ≡ deeds.preempted true (tally_of self.old) }
    {
        self.preemptions += 1;
    }

    /// The job asks for a semaphore, by the request at this position.
    pub(crate) fn ask(&mut self, queued: bool, position: u32) -> Result<(), NoMemory>
        requires { self.old.queued ≤ MOST_STEPS }
        ensures { OnOk result
            (tally_of self.new ≡ deeds.asked true queued position (tally_of self.old)) }
    {
        self.requests.push(position)?;
        if queued {
            self.queued += 1;
        }
        Ok(())
    }

    /// The job ends.
    pub(crate) fn end(&mut self, clock: u64)
        requires { clock < TICK_END }
        ensures { tally_of self.new ≡ deeds.ended true clock (tally_of self.old) }
    {
        self.end = Some(clock);
    }
}

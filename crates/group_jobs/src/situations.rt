//! What a processor's next act depends on, read off what is kept.
ghost use Rattle.std.specs.Prelude.{◌≡◌, ◌^◌, ◌<◌, ℕ, length};
ghost use Rattle.rt_base.specs.TaskNos.{number_of_task};
ghost use Rattle.rt_model.specs.Group.{Group};
ghost use Rattle.group_jobs.specs.Kept.{cpu_of};
ghost use Rattle.group_jobs.specs.Situations as kept;
ghost use Rattle.group_jobs.specs.GroupJobs.{RunsTask};

use crate::GroupJobs;
use rt_base::{CpuNo, TaskNo};
use rt_rules::Situation;

impl GroupJobs {
    /// How many operations the job that runs has done; 0 where nothing runs.
    fn ops_of_running(&self, cpu: CpuNo) -> u32
        requires cpu { cpu.0 < length self.now.kept.cpus }
        requires task { RunsTask self.now.kept cpu.0 }
        requires few { kept.ops_done_of self.now.kept (cpu_of self.now.kept cpu.0).runs < 2 ^ 32 }
        ensures { result ≡ kept.ops_done_of self.now.kept (cpu_of self.now.kept cpu.0).runs }
    {
        match self.runs(cpu) {
            None => 0,
            Some(task) => self.ops_done(task) as u32,
        }
    }

    /// The situation of a processor with this link, where the reservation of what it runs lacks budget or not.
    pub fn situation(&self, cpu: CpuNo, link: Option<TaskNo>, lacks_budget: bool) -> Situation
        requires cpu { cpu.0 < length self.now.kept.cpus }
        requires task { RunsTask self.now.kept cpu.0 }
        requires few { kept.ops_done_of self.now.kept (cpu_of self.now.kept cpu.0).runs < 2 ^ 32 }
        ensures { (g : Group) (budget : ℕ)
            → lacks_budget ≡ kept.lacks_of g (cpu_of self.now.kept cpu.0).runs budget
            → result ≡ kept.situation_of g cpu.0 (number_of_task link) budget self.now.kept }
    {
        let runs = self.runs(cpu);
        Situation {
            runs,
            at: self.ops_of_running(cpu),
            np: self.runs_non_preemptive(cpu),
            pending: link != runs,
            worked: self.has_worked(cpu),
            budget: !lacks_budget,
        }
    }
}

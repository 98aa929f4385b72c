//! The entry lines of a group, followed step by step.
ghost use Rattle.std.specs.Prelude.{◌≡◌, ◌+◌, ◌<◌, ◌≤◌, ◌∷◌, ◌++◌, [], ℕ, true, false};
ghost use Rattle.std.specs.Prelude.{IfOk, List, OnOk, Some, length};
ghost use Rattle.rt_model.specs.Histories.{after, past_of, reply_to};
ghost use Rattle.rt_plays.specs.Groups.{IsGroupOf};
ghost use Rattle.block_counts.specs.SeenWords.{tallies_of};
ghost use Rattle.rt_plays.specs.Plays.{IsPlay, group_with};
ghost use Rattle.trace_lines.specs.declared.format.Version.{Version};
ghost use Rattle.trace_lines.specs.Grammar.{line_text};
ghost use Rattle.trace_lines.specs.Known.{IsLine, known_of};
ghost use Rattle.trace_lines.specs.Lines.{Link, entry_line};
ghost use Rattle.trace_text.specs.CountLines.{shown_as};
ghost use Rattle.trace_text.specs.TraceText.{block_lines};
ghost use Rattle.trace_course.specs.Followed.{GroupEntries};
ghost use Rattle.trace_check.specs.inside.Following.{CanStep, HasTaken, IsFollowing, IsFollowingWith};
ghost use Rattle.trace_check.specs.inside.RequestLines.{request_lines};

use crate::lines::{begins_with, make_entry_line};
use crate::links::GroupLinks;
use block_counts::Seen;
use rt_base::{GroupNo, NoMemory};
use rt_rules::{Entry, Reply};
use rt_task::{Setup, Step};
use std::alloc::Global;
use trace_course::Course;
use trace_lines::{CpuLink, LineNumbers, Version};
use trace_read::mover_at;
use trace_text::{cpus_of, shown_by};
use trace_tools::Shown;
use view_replay::Player;

/// A group whose entries are followed: who plays its steps, the group's processors with their links, how far the scripts or the turns
/// of the processors were followed, the numbers of the line before, and the number of entries.
#[derive(Drop)]
pub(crate) struct Follow<P> {
    player: P,
    links: GroupLinks,
    course: Course,
    numbers: LineNumbers,
    count: u32,
}

impl<P: Player> Follow<P> {
    /// A group of a setup at opening. There is room for as many entries as the group can have.
    pub(crate) fn open(alloc: Global, setup: &Setup, group: GroupNo) -> Result<Follow<P>, NoMemory>
        requires group { IsGroupOf setup.now group.0 }
        ensures { IfOk result (λ f. IsFollowing P.at P.spare (group_with setup.now group.0) [] f) }
    {
        let drive = &setup.parts().drive;
        let cpus = cpus_of(alloc, setup, group)?;
        let listed = cpus.as_slice();
        let course = Course::open(alloc, drive, listed)?;
        let room = course.room(drive, listed.len());
        let player = P::open(alloc, setup, group, room)?;
        let links = GroupLinks::open(alloc, player.afresh(), cpus)?;
        let numbers = LineNumbers::new(alloc)?;
        Ok(Follow {
            player,
            links,
            course,
            numbers,
            count: 0,
        })
    }

    /// Whether no processor has a step left.
    pub(crate) fn is_over(&self, setup: &Setup) -> bool
        requires { (at : GroupEntries) × IsFollowingWith P.at P.spare at setup.now self.now }
        ensures over { (at : GroupEntries) → IsFollowingWith P.at P.spare at setup.now self.now
            → result ≡ true → IsPlay at.group at.entries }
        ensures not_over { (at : GroupEntries) → IsFollowingWith P.at P.spare at setup.now self.now
            → result ≡ false → IsPlay at.group at.entries → ⊥ }
    {
        self.course.is_over(setup)
    }

    /// Takes a step of the group's: the clock moves, and the act is answered.
    fn step(&mut self, alloc: Global, setup: &Setup, step: Step) -> Result<Reply, NoMemory>
        requires { (at : GroupEntries) × CanStep P.at P.spare at setup.now self.old step }
        ensures reply { IfOk result (λ r. (at : GroupEntries)
            → CanStep P.at P.spare at setup.now self.old step
            → r ≡ reply_to at.group step (past_of at.group at.entries)) }
        ensures at { OnOk result ((at : GroupEntries)
            → CanStep P.at P.spare at setup.now self.old step
            → P.at self.new.player at.group (after at.group step (past_of at.group at.entries))) }
        ensures room { OnOk result (P.spare self.new.player + 1 ≡ P.spare self.old.player) }
        ensures others { OnOk result (self.new ≡ record self.old { player = self.new.player }) }
    {
        self.player.move_clock(alloc, step.tick)?;
        self.player.answer(alloc, setup.parts(), step)
    }

    /// Takes the step of the entry line with which the text begins, where that line is right: the line that a valid trace has
    /// there is made in `line`, and compared. Gives the entry.
    pub(crate) fn take_line(
        &mut self,
        alloc: Global,
        version: Version,
        setup: &Setup,
        text: &[u8],
        line: &mut Vec<u8>,
    ) -> Result<Option<Entry>, NoMemory>
        requires { (at : GroupEntries) × IsFollowingWith P.at P.spare at setup.now self.old }
        ensures { IfOk result (λ o. (at : GroupEntries) → IsFollowingWith P.at P.spare at setup.now self.old
            → HasTaken P.at P.spare at version text.now line.new.items o self.new) }
    {
        let Some(mover) = mover_at(text) else {
            return Ok(None);
        };
        let Some(step) = self
            .course
            .take_next(setup, self.player.afresh(), mover.cpu, mover.is_tick)
        else {
            return Ok(None);
        };
        let reply = self.step(alloc, setup, step)?;
        let entry = Entry { step, reply };
        self.links.update(self.player.afresh())?;
        make_entry_line(
            line,
            &mut self.numbers,
            version,
            setup,
            self.count,
            &entry,
            self.links.changed(),
        )?;
        if !begins_with(text, line.as_slice()) {
            return Ok(None);
        }
        self.course
            .look(setup, self.player.afresh(), self.links.cpus());
        self.count += 1;
        Ok(Some(entry))
    }

    /// The entry that was followed last, with its number, as tools are shown it.
    pub(crate) fn shown(&self, group: GroupNo, no: u32, entry: Entry) -> Shown
        ensures { (at : GroupEntries) → IsFollowing P.at P.spare at.group at.entries self.now
            → at.group.number ≡ group.0
            → result ≡ shown_as at.group no entry (past_of at.group at.entries) }
    {
        shown_by(group, no, entry, self.player.afresh().ended())
    }

    /// The links now.
    pub(crate) fn links(&self) -> &[CpuLink]
        ensures { result.now ≡ self.now.links.links.items }
    {
        self.links.links()
    }

    /// The requests among the entries that were followed, each with its counts.
    pub(crate) fn requests(&self) -> &[Seen]
        ensures { (at : GroupEntries) → IsFollowing P.at P.spare at.group at.entries self.now
            → request_lines (tallies_of result.now)
            ≡ block_lines at.group (past_of at.group at.entries) }
    {
        self.player.requests()
    }

    /// How many entries were followed.
    pub(crate) fn count(&self) -> u32
        ensures { result ≡ self.now.count }
    {
        self.count
    }

    /// Who played the steps.
    pub(crate) fn player(self) -> P
        ensures { result ≡ self.player }
    {
        self.player
    }
}

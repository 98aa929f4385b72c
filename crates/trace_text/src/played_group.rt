//! A group that was played before.
ghost use Rattle.std.specs.Prelude.{◌≡◌, ◌+◌, ◌≤◌, IfOk, length};
ghost use Rattle.rt_base.specs.declared.TheConstants.{MOST_STEPS};
ghost use Rattle.rt_plays.specs.Groups.{AreStepsOf, IsLegalNow, group_of};
ghost use Rattle.trace_text.specs.Groups.{CanReplay};

use rt_base::{GroupNo, NoMemory};
use rt_rules::Entry;
use rt_task::Setup;
use std::marker::Model;

/// A group of a setup, by its number from 0, with the entries of a legal history of it. Contracts see it as a history with no
/// room for more.
#[derive(Drop)]
pub struct PlayedGroup {
    setup: Setup,
    group: GroupNo,
    entries: Vec<Entry>,
}

impl Model for PlayedGroup {
    ghost use Rattle.rt_plays.specs.Groups.{GroupHistory};
    ghost use Rattle.trace_text.specs.Groups.{CanReplay};

    ghost Value = { GroupHistory };

    ghost view = { λ a. record {
      setup = a.setup;
      group = a.group.0;
      entries = a.entries.items;
      spare = 0;
    } };

    ghost invariant = { λ a. CanReplay (record {
      setup = a.setup;
      group = a.group.0;
      entries = a.entries.items;
      spare = 0;
    }) };
}

impl PlayedGroup {
    /// The group of the setup with these entries, which were played.
    pub fn new(setup: &Setup, group: GroupNo, entries: Vec<Entry>) -> Result<PlayedGroup, NoMemory>
        requires { CanReplay (record {
          setup = setup.now;
          group = group.0;
          entries = entries.items;
          spare = 0;
        }) }
        ensures { IfOk result (λ g. g ≡ record {
          setup = setup.now;
          group = group.0;
          entries = entries.items;
          spare = 0;
        }) }
    {
        let setup = setup.share()?;
        Ok(PlayedGroup {
            setup,
            group,
            entries,
        })
    }

    /// The setup.
    pub fn setup(&self) -> &Setup
        ensures { result.now ≡ self.now.setup }
    {
        &self.setup
    }

    /// The number of the group.
    pub fn number(&self) -> GroupNo
        ensures number { result.0 ≡ self.now.group }
        ensures played { CanReplay self.now }
    {
        self.group
    }

    /// The entries, in order.
    pub fn entries(&self) -> &[Entry]
        ensures entries { result.now ≡ self.now.entries }
        ensures legal { IsLegalNow self.now }
        ensures steps { AreStepsOf (group_of self.now) self.now.entries }
        ensures room { length self.now.entries + self.now.spare ≤ MOST_STEPS }
        ensures full { self.now.spare ≡ 0 }
    {
        self.entries.as_slice()
    }
}

//! What is kept of the groups of a text as they are followed.
ghost use Rattle.std.specs.Prelude.{◌≡◌, ◌++◌, ◌∷◌, [], IfOk, List, OnOk, length, ⊤};
ghost use Rattle.rt_task.specs.declared.Parts.{Parts};
ghost use Rattle.rt_rules.specs.declared.history.Entry as entries;
ghost use Rattle.trace_laws.specs.PlayedGroups.{groups_from};
ghost use Rattle.trace_check.specs.Keeping.{CanClose, HasPlayed, Keeping};

use rt_base::{GroupNo, NoMemory};
use rt_rules::Entry;
use rt_task::Setup;
use std::alloc::Global;
use std::mem;
use trace_text::PlayedGroup;
use view_replay::{Player, Replay};

/// Is given each entry of a text that is right, and told where a group ends.
pub trait Keeper<P: Player> {
    /// What is kept once whole groups were followed with these histories, and these entries of the next.
    ghost holds: { Self → Parts → Keeping };

    /// Keeps the next entry of the group that is followed.
    fn keep(&mut self, entry: Entry) -> Result<(), NoMemory>
        ensures { OnOk result ((p : Parts) (hs : List (List entries.Entry))
            (es : List entries.Entry)
            → holds self.old p hs es → holds self.new p hs (es ++ entry ∷ [])) };

    /// Keeps the group that was followed, which is whole, with what played its steps.
    fn close(
        &mut self,
        alloc: Global,
        setup: &Setup,
        group: GroupNo,
        player: P,
    ) -> Result<(), NoMemory>
        requires { CanClose P.at player (holds self.old setup.now) setup.now group.0 }
        ensures { OnOk result ((hs : List (List entries.Entry)) (es : List entries.Entry)
            → holds self.old setup.now hs es → length hs ≡ group.0
            → HasPlayed P.at player setup.now group.0 es
            → holds self.new setup.now (hs ++ es ∷ []) []) };
}

/// Keeps nothing.
impl Keeper<Replay> for () {
    ghost holds = { λ k p hs es. ⊤ };

    fn keep(&mut self, _entry: Entry) -> Result<(), NoMemory> {
        Ok(())
    }

    fn close(
        &mut self,
        _alloc: Global,
        _setup: &Setup,
        _group: GroupNo,
        _player: Replay,
    ) -> Result<(), NoMemory> {
        Ok(())
    }
}

/// The bytes of the shortest line of an entry.
const SHORTEST_LINE: usize = b"0 0 0 irq idle\n".len();

/// Keeps all groups, each with its entries.
#[derive(Drop)]
pub(crate) struct GroupKeeper {
    groups: Vec<PlayedGroup>,
    /// Those of the group that is followed.
    entries: Vec<Entry>,
}

impl GroupKeeper {
    /// Nothing was followed yet. There is room for the entries of a first group whose text has so many bytes.
    pub(crate) fn new(alloc: Global, bytes: usize) -> Result<GroupKeeper, NoMemory>
        ensures groups { IfOk result (λ k. k.groups.items ≡ []) }
        ensures entries { IfOk result (λ k. k.entries.items ≡ []) }
    {
        let entries = Vec::with_capacity(alloc, bytes / SHORTEST_LINE)?;
        Ok(GroupKeeper {
            groups: Vec::new(alloc),
            entries,
        })
    }

    /// The groups that are whole.
    pub(crate) fn groups(self) -> Vec<PlayedGroup>
        ensures { result.items ≡ self.groups.items }
    {
        self.groups
    }
}

impl Keeper<Replay> for GroupKeeper {
    ghost holds = { λ k p hs es.
        (k.groups.items ≡ groups_from p 0 hs) × (k.entries.items ≡ es) };

    fn keep(&mut self, entry: Entry) -> Result<(), NoMemory> {
        self.entries.push(entry)?;
        Ok(())
    }

    fn close(
        &mut self,
        alloc: Global,
        setup: &Setup,
        group: GroupNo,
        _player: Replay,
    ) -> Result<(), NoMemory> {
        let entries = mem::replace(&mut self.entries, Vec::new(alloc));
        let played = PlayedGroup::new(setup, group, entries)?;
        if self.groups.push(played).is_err() {
            return Err(NoMemory);
        }
        Ok(())
    }
}

//! The tracks of the groups of a text, kept as these are followed.
ghost use Rattle.std.specs.Prelude.{◌≡◌, [], map};
ghost use Rattle.chart_texts.specs.Charts.{pasts_from};
ghost use Rattle.event_lines.specs.Shown.{group_tracks_shown};
ghost use Rattle.event_lines.specs.TrackLaws.{tracks_of_groups};

use crate::recording::Recording;
use crate::tracks::tracks_of;
use event_lines::GroupTracks;
use rt_base::{GroupNo, NoMemory};
use rt_rules::Entry;
use rt_task::Setup;
use std::alloc::Global;
use trace_check::Keeper;

/// Keeps of each group its tracks, which are recorded as its steps are taken.
#[derive(Drop)]
pub(crate) struct TrackKeeper {
    tracks: Vec<GroupTracks>,
}

impl TrackKeeper {
    /// Nothing was followed yet.
    pub(crate) fn new(alloc: Global) -> TrackKeeper
        ensures { result.tracks.items ≡ [] }
    {
        TrackKeeper {
            tracks: Vec::new(alloc),
        }
    }

    /// The tracks of the groups that are whole.
    pub(crate) fn tracks(self) -> Vec<GroupTracks>
        ensures { result.items ≡ self.tracks.items }
    {
        self.tracks
    }
}

impl Keeper<Recording> for TrackKeeper {
    ghost holds = { λ k p hs es.
        map group_tracks_shown k.tracks.items ≡ tracks_of_groups (pasts_from p 0 hs) };

    fn keep(&mut self, _entry: Entry) -> Result<(), NoMemory> {
        Ok(())
    }

    fn close(
        &mut self,
        alloc: Global,
        setup: &Setup,
        _group: GroupNo,
        player: Recording,
    ) -> Result<(), NoMemory> {
        let tracks = tracks_of(alloc, setup, player)?;
        self.tracks.push(tracks)?;
        Ok(())
    }
}

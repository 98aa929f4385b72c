//! What a chart shows of each group.
ghost use Rattle.std.specs.Prelude.{◌≡◌, IfOk, map};
ghost use Rattle.rt_plays.specs.Groups.{IsGroupOf, group_of, past};
ghost use Rattle.chart_cells.specs.Charts.{panel_shown};
ghost use Rattle.chart_texts.specs.Charts.{pasts_from};
ghost use Rattle.trace_text.specs.Groups.{AreGroupsOf, histories};
ghost use Rattle.view_charts.specs.Texts.{panel_in, panels_in};
ghost use Rattle.view_charts.specs.Windows.{IsShown};

use crate::drawing::panel_of;
use chart_cells::Panel;
use chart_texts::{Axis, Window};
use rt_base::{GroupNo, NoMemory};
use rt_task::Setup;
use std::alloc::Global;
use trace_text::PlayedGroup;

/// What a chart shows of a group, whose history is played again.
fn panel_again(
    alloc: Global,
    axis: Axis,
    window: Window,
    setup: &Setup,
    number: GroupNo,
    group: &PlayedGroup,
) -> Result<Panel, NoMemory>
    requires there { IsGroupOf setup.now number.0 }
    requires setup { group.now.setup ≡ setup.now }
    requires number { group.now.group ≡ number.0 }
    requires window { IsShown window }
    ensures { let h = group.now in IfOk result
        (λ p. panel_shown p ≡ panel_in axis window (group_of h) (past h)) }
{
    panel_of(alloc, axis, window, setup, number, group.entries())
}

/// What a chart shows of each group of a setup, by rising number.
pub(crate) fn panels_of(
    alloc: Global,
    axis: Axis,
    window: Window,
    setup: &Setup,
    groups: &[PlayedGroup],
) -> Result<Vec<Panel>, NoMemory>
    requires groups { AreGroupsOf setup.now groups.now }
    requires window { IsShown window }
    ensures { IfOk result (λ v. map panel_shown v.items
        ≡ panels_in axis window (pasts_from setup.now 0 (histories groups.now))) }
{
    // A proof knows that a setup is valid once its parts are read.
    let _parts = setup.parts();
    let mut panels = Vec::new(alloc);
    for (i, group) in groups.iter().enumerate() {
        panels.push(panel_again(alloc, axis, window, setup, GroupNo(i as u32), group)?)?;
    }
    Ok(panels)
}

//! The text of a chart.
ghost use Rattle.std.specs.Prelude.{◌≡◌, IfOk};
ghost use Rattle.trace_text.specs.Groups.{AreGroupsOf, histories};
ghost use Rattle.chart_texts.specs.Windows as windows;
ghost use Rattle.view_charts.specs.Texts.{drawn, drawn_in};
ghost use Rattle.view_charts.specs.Windows.{Fits, IsShown};

use crate::lengths::longest;
use crate::panels::panels_of;
use chart_cells::Chart;
use chart_texts::{Axis, Window};
use rt_base::NoMemory;
use rt_task::Setup;
use std::alloc::Global;
use trace_text::PlayedGroup;

/// How a chart is drawn.
#[derive(Clone, Copy, Debug, PartialEq, Eq)]
pub enum Form {
    /// In characters, two for each column.
    Text,
    /// As a picture (SVG).
    Svg,
}

/// The window that is taken where none is asked for: all columns, but at most 400 and at least one.
fn whole(longest: u64) -> Window
    ensures { result ≡ windows.whole longest }
{
    Window {
        from: 0,
        to: longest.min(400).max(1),
    }
}

/// The text of a chart in a window.
fn text_in(
    alloc: Global,
    form: Form,
    axis: Axis,
    window: Window,
    setup: &Setup,
    groups: &[PlayedGroup],
) -> Result<Vec<u8>, NoMemory>
    requires groups { AreGroupsOf setup.now groups.now }
    requires window { IsShown window }
    ensures { IfOk result
        (λ v. v.items ≡ drawn_in form axis window setup.now (histories groups.now)) }
{
    let chart = Chart {
        length: longest(axis, groups),
        panels: panels_of(alloc, axis, window, setup, groups)?,
    };
    match form {
        Form::Text => chart_lines::chart_text(alloc, setup.parts(), axis, window, &chart),
        Form::Svg => svg_lines::svg_text(alloc, setup.parts(), axis, window, &chart),
    }
}

/// The text of a chart of a setup and the histories of its groups, one for each group by rising number: by an axis, and in a
/// window, or in one of all columns, but at most the first 400, where none is asked for. Each history is played again; memory is
/// taken for the text, for the columns of the window, and for one group at a time.
pub fn chart_text(
    alloc: Global,
    form: Form,
    axis: Axis,
    window: Option<Window>,
    setup: &Setup,
    groups: &[PlayedGroup],
) -> Result<Vec<u8>, NoMemory>
    requires groups { AreGroupsOf setup.now groups.now }
    requires window { Fits window }
    ensures { IfOk result
        (λ v. v.items ≡ drawn form axis window setup.now (histories groups.now)) }
{
    let window = match window {
        Some(window) => window,
        None => whole(longest(axis, groups)),
    };
    text_in(alloc, form, axis, window, setup, groups)
}

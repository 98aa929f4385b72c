//! Reading a document as a whole, before its elements.
ghost use Rattle.std.specs.Prelude.{◌≡◌, [], map, ◌^◌, ◌<◌, ◌+◌, ◌≤◌, None, Some, length, option_map, IfOk};
ghost use Rattle.serde_json.specs.View.{view};
ghost use Rattle.set_read.specs.Document as document;
ghost use Rattle.set_read.specs.Forms as forms;
ghost use Rattle.set_read.specs.Seen.{whole_seen, play_seen, values_seen};

use crate::forms::{has_only, text_at};
use rt_task::PluginKind;
use serde_json::Value;

/// What a document runs by.
#[derive(Clone, Copy)]
pub enum Play<'a> {
    Steps(&'a [Value]),
    Horizon(u64),
}

/// A document whose elements are not read yet.
#[derive(Clone, Copy)]
pub struct Whole<'a> {
    pub plugin: PluginKind,
    pub clusters: &'a [Value],
    pub sems: &'a [Value],
    pub resvs: &'a [Value],
    pub tasks: &'a [Value],
    pub play: Play<'a>,
}

/// The plugin of a word.
pub fn plugin_in(word: &str) -> Option<PluginKind>
    ensures { result ≡ forms.word_in document.plugins word.now }
{
    match word {
        "GSN-EDF" => Some(PluginKind::GsnEdf),
        "C-EDF" => Some(PluginKind::CEdf),
        "PSN-EDF" => Some(PluginKind::PsnEdf),
        "P-FP" => Some(PluginKind::PFp),
        "P-RES" => Some(PluginKind::PRes),
        _ => None,
    }
}

#[tactic(auto, using(crate::proofs::FormLaws::listed_items))]
fn items_in(v: &Value) -> Option<&[Value]>
    ensures { option_map values_seen result ≡ forms.items (view v.now) }
{
    let items = v.as_array()?;
    Some(items.as_slice())
}

/// The elements of an array that is required.
pub fn items_at<'a>(v: &'a Value, key: &str) -> Option<&'a [Value]>
    ensures { option_map values_seen result ≡ forms.required forms.items key.now (view v.now) }
{
    let member = v.get(key)?;
    items_in(member)
}

/// The elements of an array, none where the member is not there.
pub fn items_or_none<'a>(v: &'a Value, key: &str) -> Option<&'a [Value]>
    ensures { option_map values_seen result ≡ forms.optional forms.items [] key.now (view v.now) }
{
    match v.get(key) {
        None => Some(&[]),
        Some(member) => items_in(member),
    }
}

/// What the document runs by, where exactly one of the two members is there and has its form.
pub fn play_of<'a>(steps: Option<&'a Value>, horizon: Option<&'a Value>) -> Option<Play<'a>>
    ensures { option_map play_seen result
        ≡ document.play_of (option_map
        (λ v. view v.now) steps.entry) (option_map (λ v. view v.now) horizon.entry) }
{
    match (steps, horizon) {
        (Some(steps), None) => {
            let items = items_in(steps)?;
            Some(Play::Steps(items))
        }
        (None, Some(horizon)) => {
            let n = horizon.as_u64()?;
            Some(Play::Horizon(n))
        }
        _ => None,
    }
}

/// The document as a whole, if its members have their forms; its elements are not looked at.
#[tactic(auto, unfolding(crate::specs::Document::whole_of))]
pub fn whole_of(v: &Value) -> Option<Whole<'_>>
    ensures { option_map whole_seen result ≡ document.whole_of (view v.now) }
{
    if !has_only(
        v,
        &[
            "plugin", "clusters", "sems", "resvs", "tasks", "steps", "horizon",
        ],
    ) {
        return None;
    }
    let word = text_at(v, "plugin")?;
    let plugin = plugin_in(word)?;
    let clusters = items_at(v, "clusters")?;
    let sems = items_or_none(v, "sems")?;
    let resvs = items_or_none(v, "resvs")?;
    let tasks = items_or_none(v, "tasks")?;
    let play = play_of(v.get("steps"), v.get("horizon"))?;
    Some(Whole {
        plugin,
        clusters,
        sems,
        resvs,
        tasks,
        play,
    })
}

//! Reading a set.
ghost use Rattle.std.specs.Prelude.{◌≡◌, ◌+◌, ◌<◌, ◌^◌, map, length, vec_len, IfErr, IfOk, IsTrue};
ghost use Rattle.rt_task.specs.declared.bad_set.Part.TheVariants as parts;
ghost use Rattle.serde_json.specs.View.{view};
ghost use Rattle.set_read.specs.Document as document;
ghost use Rattle.rt_task.specs.Answers.{Gives};
ghost use Rattle.set_read.specs.inside.Stepwise.{draft_read, drive_read, whole_read};
ghost use Rattle.set_read.specs.Names.{names_seen};
ghost use Rattle.set_read.specs.Seen.{play_seen, whole_seen};
ghost use Rattle.set_read.specs.inside.Few.{IsFew, HasFewSteps};
ghost use Rattle.set_read.specs.Sets.{same, draft_in_bytes, set};

use crate::acts::NameLists;
use crate::document::{Play, Whole, whole_of};
use crate::elements::{clusters_of, reservations_of, semaphores_of, steps_of, tasks_of};
use crate::forms::text_at;
use crate::names::Names;
use crate::quick::quick_draft;
use rt_task::{
    BadSet, Draft, DraftClusters, DraftDrive, DraftResvs, DraftSteps, DraftTasks, Part, Place,
    SemList, SetKind, SetStop, Setup,
};
use serde_json::Value;
use set_rules::setup_of_draft;
use std::alloc::{AllocError, Global};

fn name_in(v: &Value) -> &str
    ensures { result.now ≡ document.name_in (view v.now) }
{
    match text_at(v, "name") {
        None => "",
        Some(name) => name,
    }
}

fn names_in(alloc: Global, items: &[Value]) -> Result<Vec<&str>, AllocError>
    ensures count { IfOk result (λ v. vec_len v ≡ length items.now) }
    ensures names { IfOk result (λ v. map (λ w. w.now) v.items
        ≡ map document.name_in (map view items.now)) }
{
    let mut names = Vec::new(alloc);
    for item in items {
        names.push(name_in(item))?;
    }
    Ok(names)
}

pub(crate) fn is_few(whole: &Whole) -> bool
    ensures { IsTrue result → IsFew whole.now }
{
    let most: usize = 4_294_967_294;
    let mut few = whole.clusters.len() < most
        && whole.sems.len() < most
        && whole.resvs.len() < most
        && whole.tasks.len() < most;
    if let Play::Steps(items) = whole.play {
        few = few && items.len() < most;
    }
    few
}

#[tactic(auto, unfolding(crate::specs::inside::Stepwise::drive_read))]
fn drive_of(alloc: Global, names: &NameLists, play: Play) -> Result<DraftDrive, SetStop>
    requires { HasFewSteps play }
    ensures { Gives same result (drive_read (names_seen names.now) (play_seen play.entry)) }
{
    match play {
        Play::Steps(items) => {
            let found = steps_of(alloc, names, items)?;
            Ok(DraftDrive::Steps(DraftSteps::from_vec(found)))
        }
        Play::Horizon(h) => Ok(DraftDrive::Horizon(h)),
    }
}

fn has_horizon(play: Play) -> bool
    ensures { result ≡ document.has_horizon (play_seen play.entry) }
{
    match play {
        Play::Steps(_) => false,
        Play::Horizon(_) => true,
    }
}

fn whole_place() -> Place
    ensures { result ≡ record { part = Part.Whole; index = 0 } }
{
    Place {
        part: Part::Whole,
        index: 0,
    }
}

fn names_among<'a>(alloc: Global, items: &'a [Value]) -> Result<Names<'a>, AllocError>
    requires { length items.now + 1 < 2 ^ 32 }
    ensures { IfOk result (λ n. n ≡ map document.name_in (map view items.now)) }
{
    Names::of(alloc, names_in(alloc, items)?)
}

pub(crate) fn name_lists<'a>(alloc: Global, whole: &Whole<'a>) -> Result<NameLists<'a>, AllocError>
    requires { IsFew whole.now }
    ensures { IfOk result (λ n. names_seen n ≡ document.names_of (whole_seen whole.now)) }
{
    let sems = names_among(alloc, whole.sems)?;
    let resvs = names_among(alloc, whole.resvs)?;
    let tasks = names_among(alloc, whole.tasks)?;
    Ok(NameLists { sems, resvs, tasks })
}

/// The names of a document's elements.
pub fn names_of<'a>(alloc: Global, whole: &Whole<'a>) -> Result<NameLists<'a>, SetStop>
    ensures names { IfOk result
        (λ n. names_seen n ≡ document.names_of (whole_seen whole.now)) }
    ensures memory { IfErr result (λ e. e ≡ SetStop.NoMemory) }
{
    if !is_few(whole) {
        return Err(SetStop::NoMemory);
    }
    Ok(name_lists(alloc, whole)?)
}

#[tactic(auto, unfolding(crate::specs::inside::Stepwise::whole_read))]
pub(crate) fn draft_of_whole(
    alloc: Global,
    whole: &Whole,
    names: &NameLists,
) -> Result<Draft, SetStop>
    requires few { IsFew whole.now }
    requires names { names_seen names.now ≡ document.names_of (whole_seen whole.now) }
    ensures { Gives same result (whole_read (whole_seen whole.now)) }
{
    let clusters = clusters_of(alloc, whole.clusters)?;
    let sems = semaphores_of(alloc, whole.sems)?;
    let resvs = reservations_of(alloc, whole.resvs)?;
    let tasks = tasks_of(alloc, names, has_horizon(whole.play), whole.tasks)?;
    let drive = drive_of(alloc, names, whole.play)?;
    Ok(Draft {
        plugin: whole.plugin,
        clusters: DraftClusters::from_vec(clusters),
        sems: SemList::from_vec(sems),
        resvs: DraftResvs::from_vec(resvs),
        tasks: DraftTasks::from_vec(tasks),
        drive,
    })
}

#[tactic(auto, unfolding(crate::specs::inside::Stepwise::draft_read))]
fn draft_of_value(alloc: Global, v: &Value) -> Result<Draft, SetStop>
    ensures { Gives same result (draft_read (view v.now)) }
{
    let Some(whole) = whole_of(v) else {
        return Err(SetStop::Bad(BadSet {
            kind: SetKind::Shape,
            place: whole_place(),
        }));
    };
    if !is_few(&whole) {
        return Err(SetStop::NoMemory);
    }
    let names = name_lists(alloc, &whole)?;
    draft_of_whole(alloc, &whole, &names)
}

/// The set that a document says, before its rules are tried, or the first fault of form.
pub fn read_draft(alloc: Global, bytes: &[u8]) -> Result<Draft, SetStop>
    ensures { Gives same result (draft_in_bytes bytes.now) }
{
    match quick_draft(alloc, bytes) {
        Some(draft) => Ok(draft),
        None => read_as_whole(alloc, bytes),
    }
}

/// The same of any document, read into one value.
fn read_as_whole(alloc: Global, bytes: &[u8]) -> Result<Draft, SetStop>
    ensures { Gives same result (draft_in_bytes bytes.now) }
{
    match Value::from_slice(alloc, bytes) {
        Ok(value) => draft_of_value(alloc, &value),
        Err(e) => {
            if e.is_memory() {
                return Err(SetStop::NoMemory);
            }
            Err(SetStop::Bad(BadSet {
                kind: SetKind::NotJson,
                place: whole_place(),
            }))
        }
    }
}

/// The setup that a set document stands for, or why it is refused: the first rule that it breaks,
/// in the order of the kinds, and within one kind the first place. It is read as a whole, so memory
/// is taken in proportion to its length; bodies are written out only where nothing is refused.
#[tactic(auto, using(crate::proofs::ShapeLaws::set_stops))]
pub fn read_set(alloc: Global, bytes: &[u8]) -> Result<Setup, SetStop>
    ensures { Gives (λ s. s) result (set bytes.now) }
{
    let draft = read_draft(alloc, bytes)?;
    setup_of_draft(alloc, draft)
}

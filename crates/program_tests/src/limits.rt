//! Sets at their limits, which are played, and one beyond, which are refused.

use crate::calls::play;
use rt_fault::{Status, SureSink, SureSource};
use rt_task::{Part, SetKind};
use set_input::refused;
use std::alloc::Global;
use std::process::Abort;
use std::test::Fail;

/// What a set has so much of. Else it has one cluster of one processor, no task and no steps.
#[derive(Clone, Copy, Debug)]
enum Measure {
    /// Clusters of one processor, under P-FP.
    Clusters,
    /// Processors of a second cluster beside one of 32, under C-EDF.
    Cpus,
    Tasks,
    /// FMLP semaphores.
    Sems,
    /// Reservations, under P-RES.
    Resvs,
    Steps,
    /// The horizon of one processor and one task.
    Horizon,
    /// Units of work before the end in a body.
    Work,
    /// The tick of step 0.
    Tick,
    /// The priority of task 0.
    Prio,
    /// The bytes of the name of task 0.
    NameBytes,
    /// Arrays in one another, as the whole input.
    Nested,
}

const ONE_CPU: &str = "{\"cpus\":1}";

const NO_STEPS: &str = "\"steps\":[]";

/// The kind and the part of a refusal.
type Refusal = (SetKind, Part);

/// A measure, how much of it is at a limit and how much beyond, and how the latter is refused, at index 0.
type Limit = (Measure, &'static [u64], &'static [u64], Refusal);

const WHOLE_SIZE: Refusal = (SetKind::Size, Part::Whole);

const LIMITS: [Limit; 12] = [
    (Measure::Clusters, &[64], &[65], WHOLE_SIZE),
    (Measure::Cpus, &[32], &[33], WHOLE_SIZE),
    (Measure::Tasks, &[1_024], &[1_025], WHOLE_SIZE),
    (Measure::Sems, &[256], &[257], WHOLE_SIZE),
    (Measure::Resvs, &[64], &[65], WHOLE_SIZE),
    (Measure::Steps, &[1_000_000], &[1_000_001], WHOLE_SIZE),
    (Measure::Horizon, &[55_555], &[55_556], WHOLE_SIZE),
    (Measure::Work, &[999], &[1_000], (SetKind::Size, Part::Task)),
    (
        Measure::Tick,
        &[999_999_999_999],
        &[1_000_000_000_000],
        (SetKind::Range, Part::Step),
    ),
    (
        Measure::Prio,
        &[1, 511],
        &[0, 512],
        (SetKind::Range, Part::Task),
    ),
    (
        Measure::NameBytes,
        &[32],
        &[33, 0],
        (SetKind::Name, Part::Task),
    ),
    (
        Measure::Nested,
        &[],
        &[128],
        (SetKind::NotJson, Part::Whole),
    ),
];

/// Copies of a text, one after another.
fn copies(alloc: Global, text: &str, count: u64) -> Result<String, Fail> {
    let mut all = String::new(alloc);
    for _ in 0..count {
        all.push_str(text)?;
    }
    Ok(all)
}

/// A list that has one element `count` times.
fn list_of(alloc: Global, element: &str, count: u64) -> Result<String, Fail> {
    let mut list = String::new(alloc);
    for n in 0..count {
        if n > 0 {
            list.push(',')?;
        }
        list.push_str(element)?;
    }
    Ok(list)
}

/// A list of elements, each with its number between two parts.
fn numbered(alloc: Global, before: &str, after: &str, count: u64) -> Result<String, Fail> {
    let mut list = String::new(alloc);
    for n in 0..count {
        let comma = if n > 0 { "," } else { "" };
        let element = format!(in alloc; "{comma}{before}{n}{after}")?;
        list.push_str(element.as_str())?;
    }
    Ok(list)
}

/// The set of a plugin, with these clusters and members.
fn document(alloc: Global, plugin: &str, clusters: &str, members: &str) -> Result<String, Fail> {
    Ok(format!(in alloc; "{{\"plugin\":\"{plugin}\",\"clusters\":[{clusters}],{members}}}")?)
}

/// The set with one task, of which this is said, and these members.
fn one_task(alloc: Global, task: &str, members: &str) -> Result<String, Fail> {
    let members = format!(in alloc; "\"tasks\":[{{\"cost\":1,\"period\":10,{task}}}],{members}")?;
    document(alloc, "GSN-EDF", ONE_CPU, members.as_str())
}

/// The set with these steps.
fn stepped(alloc: Global, steps: &str) -> Result<String, Fail> {
    let members = format!(in alloc; "\"steps\":[{steps}]")?;
    document(alloc, "GSN-EDF", ONE_CPU, members.as_str())
}

fn clusters(alloc: Global, count: u64) -> Result<String, Fail> {
    let clusters = list_of(alloc, ONE_CPU, count)?;
    document(alloc, "P-FP", clusters.as_str(), NO_STEPS)
}

fn cpus(alloc: Global, count: u64) -> Result<String, Fail> {
    let clusters = format!(in alloc; "{{\"cpus\":32}},{{\"cpus\":{count}}}")?;
    document(alloc, "C-EDF", clusters.as_str(), NO_STEPS)
}

fn tasks(alloc: Global, count: u64) -> Result<String, Fail> {
    let tasks = numbered(
        alloc,
        "{\"name\":\"t",
        "\",\"cost\":1,\"period\":10}",
        count,
    )?;
    let members = format!(in alloc; "\"tasks\":[{tasks}],{NO_STEPS}")?;
    document(alloc, "GSN-EDF", ONE_CPU, members.as_str())
}

fn sems(alloc: Global, count: u64) -> Result<String, Fail> {
    let sems = numbered(alloc, "{\"name\":\"s", "\",\"protocol\":\"FMLP\"}", count)?;
    let members = format!(in alloc; "\"sems\":[{sems}],{NO_STEPS}")?;
    document(alloc, "GSN-EDF", ONE_CPU, members.as_str())
}

fn resvs(alloc: Global, count: u64) -> Result<String, Fail> {
    let rest = "\",\"kind\":\"polling\",\"budget\":1,\"period\":10}";
    let resvs = numbered(alloc, "{\"name\":\"r", rest, count)?;
    let members = format!(in alloc; "\"resvs\":[{resvs}],{NO_STEPS}")?;
    document(alloc, "P-RES", ONE_CPU, members.as_str())
}

fn steps(alloc: Global, count: u64) -> Result<String, Fail> {
    let steps = list_of(alloc, "[0,0,\"tick\"]", count)?;
    stepped(alloc, steps.as_str())
}

fn horizon(alloc: Global, count: u64) -> Result<String, Fail> {
    let horizon = format!(in alloc; "\"horizon\":{count}")?;
    one_task(
        alloc,
        "\"name\":\"A\",\"body\":[[\"work\",1],[\"end\"]]",
        horizon.as_str(),
    )
}

fn work(alloc: Global, count: u64) -> Result<String, Fail> {
    let task = format!(in alloc; "\"name\":\"A\",\"body\":[[\"work\",{count}],[\"end\"]]")?;
    one_task(alloc, task.as_str(), NO_STEPS)
}

fn tick(alloc: Global, tick: u64) -> Result<String, Fail> {
    let step = format!(in alloc; "[0,{tick},\"tick\"]")?;
    stepped(alloc, step.as_str())
}

fn prio(alloc: Global, prio: u64) -> Result<String, Fail> {
    let task = format!(in alloc; "\"name\":\"A\",\"prio\":{prio}")?;
    one_task(alloc, task.as_str(), NO_STEPS)
}

fn name_bytes(alloc: Global, count: u64) -> Result<String, Fail> {
    let name = copies(alloc, "A", count)?;
    let task = format!(in alloc; "\"name\":\"{name}\"")?;
    one_task(alloc, task.as_str(), NO_STEPS)
}

fn nested(alloc: Global, count: u64) -> Result<String, Fail> {
    let opened = copies(alloc, "[", count)?;
    let closed = copies(alloc, "]", count)?;
    Ok(format!(in alloc; "{opened}{closed}")?)
}

/// The set with so much of a measure.
fn set_with(alloc: Global, measure: Measure, count: u64) -> Result<String, Fail> {
    match measure {
        Measure::Clusters => clusters(alloc, count),
        Measure::Cpus => cpus(alloc, count),
        Measure::Tasks => tasks(alloc, count),
        Measure::Sems => sems(alloc, count),
        Measure::Resvs => resvs(alloc, count),
        Measure::Steps => steps(alloc, count),
        Measure::Horizon => horizon(alloc, count),
        Measure::Work => work(alloc, count),
        Measure::Tick => tick(alloc, count),
        Measure::Prio => prio(alloc, count),
        Measure::NameBytes => name_bytes(alloc, count),
        Measure::Nested => nested(alloc, count),
    }
}

/// What `sim` answers to the set with so much of a measure, and whether it writes.
fn answer_with(alloc: Global, measure: Measure, count: u64) -> Result<(Status, bool), Fail> {
    let text = set_with(alloc, measure, count)?;
    let mut src = SureSource::new(text.into_bytes());
    let mut out = SureSink::new(alloc, 0)?;
    let status = play(alloc, &mut src, &mut out)?;
    Ok((status, out.beyond() > 0))
}

/// Plays a set at a limit, and has one beyond it refused.
fn try_limit(rt: &impl Abort, alloc: Global, limit: Limit) -> Result<(), Fail> {
    let (measure, most, beyond, (kind, part)) = limit;
    for count in most {
        let answer = answer_with(alloc, measure, *count)?;
        assert_eq!(rt; answer, (Status::Ok, true), "{measure:?} {count}");
    }
    for count in beyond {
        let answer = answer_with(alloc, measure, *count)?;
        assert_eq!(rt;
            answer,
            (refused(kind, part, 0), false),
            "{measure:?} {count}"
        );
    }
    Ok(())
}

#[test]
fn plays_sets_at_their_limits_and_none_beyond(rt: HostRuntime) -> Result<(), Fail> {
    for limit in LIMITS {
        try_limit(&rt, rt.alloc(), limit)?;
    }
    Ok(())
}

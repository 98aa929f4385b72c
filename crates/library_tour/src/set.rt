//! A set of one's own.
ghost use Rattle.std.specs.Prelude.{◌≡◌, [], ◌∷◌, IfOk};
ghost use Rattle.rt_task.specs.Draft.{parts_of};
ghost use Rattle.library_tour.specs.inside.TourSet.{at_once, the_draft, the_sem, the_steps, user};

use rt_base::{SemNo, TaskNo};
use rt_task::{
    Act, Draft, DraftCluster, DraftClusters, DraftDrive, DraftResvs, DraftStep, DraftSteps,
    DraftTask, DraftTasks, Kind, Name, Op, Pieces, PluginKind, Protocol, Sem, SemList, SemNos,
    SetStop, Setup,
};
use set_rules::setup_of_draft;
use std::alloc::{AllocError, Global};

/// The semaphore that both tasks declare.
pub(crate) const SHARED: SemNo = SemNo(1);

/// A task with this number, of this letter, that declares the semaphore.
fn task(alloc: Global, number: u32, letter: u8, deadline: u64) -> Result<DraftTask, AllocError>
    ensures { IfOk result (λ t. t ≡ user number letter deadline) }
{
    Ok(DraftTask {
        number: TaskNo(number),
        name: Name::from_vec(Vec::from_slice(alloc, &[letter])?),
        cluster: 0,
        cost: 2,
        period: 10,
        rel_deadline: deadline,
        phase: 0,
        kind: Kind::Periodic,
        prio: 511,
        enforce: false,
        uses: SemNos::from_vec(Vec::from_slice(alloc, &[SHARED])?),
        resv: None,
        pieces: Pieces::from_vec(Vec::new(alloc)),
        early: false,
    })
}

fn tasks(alloc: Global) -> Result<DraftTasks, AllocError>
    ensures { IfOk result (λ ts. ts ≡ user 1 65 9 ∷ user 2 66 7 ∷ []) }
{
    let mut tasks = Vec::new(alloc);
    tasks.push(task(alloc, 1, b'A', 9)?)?;
    tasks.push(task(alloc, 2, b'B', 7)?)?;
    Ok(DraftTasks::from_vec(tasks))
}

fn sems(alloc: Global) -> Result<SemList, AllocError>
    ensures { IfOk result (λ ss. ss ≡ the_sem ∷ []) }
{
    let mut sems = Vec::new(alloc);
    sems.push(Sem {
        name: Name::from_vec(Vec::from_slice(alloc, b"L")?),
        protocol: Protocol::Fmlp,
    })?;
    Ok(SemList::from_vec(sems))
}

/// A step of the processor at tick 0.
fn step(cpu: u64, act: Act) -> DraftStep
    ensures { result ≡ at_once cpu act }
{
    DraftStep { cpu, tick: 0, act }
}

fn steps(alloc: Global) -> Result<DraftSteps, AllocError>
    ensures { IfOk result (λ ss. ss ≡ the_steps) }
{
    let lock = Act::Do(Op::Lock(SHARED));
    let steps = [
        step(0, Act::Irq),
        step(1, Act::Irq),
        step(1, lock),
        step(0, lock),
        step(1, lock),
    ];
    Ok(DraftSteps::from_vec(Vec::from_slice(alloc, &steps)?))
}

fn draft(alloc: Global) -> Result<Draft, AllocError>
    ensures { IfOk result (λ d. d ≡ the_draft) }
{
    let two = DraftCluster { cpus: 2, group: 0 };
    Ok(Draft {
        plugin: PluginKind::GsnEdf,
        clusters: DraftClusters::from_vec(Vec::from_slice(alloc, &[two])?),
        sems: sems(alloc)?,
        resvs: DraftResvs::from_vec(Vec::new(alloc)),
        tasks: tasks(alloc)?,
        drive: DraftDrive::Steps(steps(alloc)?),
    })
}

/// The set as the rules accept it; a draft that broke one would be answered by the first rule that it breaks.
pub(crate) fn setup(alloc: Global) -> Result<Setup, SetStop>
    ensures { IfOk result (λ s. s ≡ parts_of the_draft) }
{
    setup_of_draft(alloc, draft(alloc)?)
}

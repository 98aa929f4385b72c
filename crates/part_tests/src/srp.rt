use rt_base::TaskNo;
use srp_sem::SrpSet;
use std::test::Fail;

// Two semaphores with the ceilings 50 and 20, and two tasks whose relative deadlines are 100 and 30.
#[test]
fn newest_is_freed_first(rt: HostRuntime) -> Result<(), Fail> {
    let mut set = SrpSet::new(rt.alloc(), &[50, 20], 4)?;
    assert_eq!(rt; set.holder(0), None);
    assert!(rt; set.passes(TaskNo(2), 1000));
    set.ask(TaskNo(1), 0);
    assert_eq!(rt; set.holder(0), Some(TaskNo(1)));
    assert!(rt; set.passes(TaskNo(1), 100));
    assert!(rt; set.passes(TaskNo(2), 30));
    assert!(rt; !set.passes(TaskNo(2), 50));
    set.ask(TaskNo(2), 1);
    assert!(rt; !set.passes(TaskNo(1), 20));
    assert!(rt; set.passes(TaskNo(1), 19));
    assert_eq!(rt; set.last_of(TaskNo(2)), Some(1));
    set.release(TaskNo(2), 1);
    assert_eq!(rt; set.last_of(TaskNo(2)), None);
    assert_eq!(rt; set.last_of(TaskNo(1)), Some(0));
    Ok(())
}

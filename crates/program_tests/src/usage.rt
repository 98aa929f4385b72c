//! The fault lines of the programs that no case shows.

use rt_fault::Status;
use set_input::FaultLine;
use std::test::Fail;

/// A usage, a status, and what is said of it.
type Case = (&'static str, Status, &'static str);

const CASES: [Case; 5] = [
    (
        run_command::USAGE,
        Status::Usage,
        "usage: rtrun run, rtrun split",
    ),
    (sim_commands::USAGE, Status::ReadFault, "reading failed"),
    (sim_commands::USAGE, Status::WriteFault, "writing failed"),
    (sim_commands::USAGE, Status::TooLong, "input too long"),
    (sim_commands::USAGE, Status::NoMemory, "no memory"),
];

#[test]
fn says_its_usage_and_each_fault(rt: HostRuntime) -> Result<(), Fail> {
    for (usage, status, wanted) in CASES {
        let line = FaultLine { usage, status };
        assert_eq!(rt; format!(in rt.alloc(); "{line}")?.as_str(), wanted);
    }
    Ok(())
}

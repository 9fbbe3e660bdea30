use gw_config::ConfigFault;
use gw_report::ProgramFault;
use gw_session::RunFault;
use std::test::Fail;

// The lines of troubles that a run of the program has no way to meet; tests/program has the others.
#[test]
fn prints_troubles(rt: HostRuntime) -> Result<(), Fail> {
    for (program_fault, line) in [
        (
            ProgramFault::Session(RunFault::OutOfMemory),
            "out of memory",
        ),
        (
            ProgramFault::Config(ConfigFault::OutOfMemory),
            "out of memory",
        ),
        (ProgramFault::OutOfMemory, "out of memory"),
    ] {
        let printed = format!(in rt.alloc(); "{program_fault}")?;
        assert!(rt; printed.as_str() == line);
    }
    Ok(())
}

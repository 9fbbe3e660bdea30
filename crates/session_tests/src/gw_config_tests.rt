use g704_cas::CircuitNo;
use gw_config::read;
use gw_switch::Gateway;
use q421_line::Role;
use std::alloc::{AllocError, Global};
use std::test::Fail;

// The line that the program prints of a configuration.
fn line_of(alloc: Global, text: &[u8]) -> Result<String, AllocError> {
    match read(alloc, text) {
        Ok(_) => String::from_str(alloc, "a configuration"),
        Err(fault) => format!(in alloc; "{fault}"),
    }
}

#[test]
fn configuration_faults(rt: HostRuntime) -> Result<(), Fail> {
    for (text, line) in [
        ("", "config 3 Missing at 0"),
        ("x = 1", "config 2 UnknownKey at 0"),
        ("law = A", "config 1 Syntax at 0"),
        ("law = 1", "config 4 WrongType at 0"),
        (
            "law = \"mu\"\n[[circuit]]\nnumber = 1\ncodec = \"pcma\"",
            "config 7 LawCodec at 1",
        ),
        (
            "law = \"A\"\n[[circuit]]\nnumber = 31",
            "config 5 OutOfRange at 1",
        ),
        (
            "law = \"A\"\n[[circuit]]\nnumber = 4\n[[circuit]]\nnumber = 4",
            "config 6 Twice at 2",
        ),
        (
            "law = \"A\"\n[[circuit]]\nnumber = 1\ncodec = \"g726-32\"",
            "config 3 Missing at 1",
        ),
    ] {
        let printed = line_of(rt.alloc(), text.as_bytes())?;
        assert!(rt; printed.as_str() == line, "at {text}");
    }
    let spaces = vec![in rt.alloc(); b' '; 65_537]?;
    let printed = line_of(rt.alloc(), &spaces)?;
    assert!(rt; printed.as_str() == "config 8 TooLong at 0");
    Ok(())
}

#[test]
fn gateway_of_a_configuration(rt: HostRuntime) -> Result<(), Fail> {
    let third = CircuitNo::new(3).ok_or("a circuit")?;
    let text = "law = \"A\"\n[[circuit]]\nnumber = 3\nrole = \"incoming\"\n";
    let config = read(rt.alloc(), text.as_bytes())?;
    let gateway = Gateway::open(rt.alloc(), &config.gateway)?;
    assert_eq!(rt; gateway.status(third).role, Role::Incoming);
    Ok(())
}

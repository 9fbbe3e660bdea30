use e1_g711::Law;
use g726_codec::CodecKind;
use gw_command::{
    AlignOptions, ControlOptions, Crc4Options, FilterOptions, PortOptions, RefusalKind,
    ReplayOptions, Request, SatopOptions, Senders, ServeOptions, SessionOptions, StreamOptions,
    TrunkOptions, request_of,
};
use gw_session::StreamSpec;
use satop_playout::Replacement;
use std::alloc::{AllocError, Global};
use std::test::Fail;

// What a session has without options.
const SESSION: SessionOptions<'static> = SessionOptions {
    config: "a",
    load: None,
    save: None,
    seizure_wait: None,
    totals: false,
};

const PORTS: PortOptions = PortOptions {
    senders: Senders::Any,
    repeat: 0,
};

const FILTERS: FilterOptions = FilterOptions {
    slots: false,
    align: false,
    crc4: false,
    live: false,
};

const TRUNK: TrunkOptions<'static> = TrunkOptions {
    session: SESSION,
    ports: PORTS,
    sockets: None,
    log: None,
    tell: None,
    control: None,
    filters: FILTERS,
};

const CRC4: Crc4Options<'static> = Crc4Options {
    check: false,
    live: false,
    reports: None,
    totals: false,
};

const SATOP: SatopOptions<'static> = SatopOptions {
    local: "a",
    peer: "b",
    from: None,
    size: 256,
    jitter: 4,
    rtp: None,
    sequence: None,
    fill: Replacement::Again,
    own_clock: false,
};

// Trunks, by what stands behind `--config a`.
const TRUNKS: [(&str, TrunkOptions<'static>); 8] = [
    ("", TRUNK),
    (
        "--load b --save c --seizure-wait 301 --senders first --repeat 8 --sockets 13-45 --log e \
         --tell f --control g --end 10",
        TrunkOptions {
            session: SessionOptions {
                load: Some("b"),
                save: Some("c"),
                seizure_wait: Some(151),
                ..SESSION
            },
            ports: PortOptions {
                senders: Senders::First,
                repeat: 8,
            },
            sockets: Some((13, 45)),
            log: Some("e"),
            tell: Some("f"),
            control: Some(ControlOptions {
                path: "g",
                end: Some(10),
            }),
            filters: FILTERS,
        },
    ),
    (
        "--totals",
        TrunkOptions {
            session: SessionOptions {
                totals: true,
                ..SESSION
            },
            ..TRUNK
        },
    ),
    (
        "--control b",
        TrunkOptions {
            control: Some(ControlOptions {
                path: "b",
                end: None,
            }),
            ..TRUNK
        },
    ),
    (
        "--slots 1-31",
        TrunkOptions {
            filters: FilterOptions {
                slots: true,
                ..FILTERS
            },
            ..TRUNK
        },
    ),
    (
        "--align",
        TrunkOptions {
            filters: FilterOptions {
                align: true,
                ..FILTERS
            },
            ..TRUNK
        },
    ),
    (
        "--crc4",
        TrunkOptions {
            filters: FilterOptions {
                crc4: true,
                ..FILTERS
            },
            ..TRUNK
        },
    ),
    (
        "--live",
        TrunkOptions {
            filters: FilterOptions {
                live: true,
                ..FILTERS
            },
            ..TRUNK
        },
    ),
];

// Sessions that are no trunk.
const SESSIONS: [(&str, Request<'static>); 7] = [
    ("check --config a", Request::Check(SESSION)),
    (
        "check --config a --load b --seizure-wait 8000",
        Request::Check(SessionOptions {
            load: Some("b"),
            seizure_wait: Some(4000),
            ..SESSION
        }),
    ),
    (
        "check --config a --totals",
        Request::Check(SessionOptions {
            totals: true,
            ..SESSION
        }),
    ),
    (
        "replay --config a",
        Request::Replay(ReplayOptions {
            session: SESSION,
            tell: None,
        }),
    ),
    (
        "replay --config a --load b --save c --seizure-wait 200 --tell d --totals",
        Request::Replay(ReplayOptions {
            session: SessionOptions {
                config: "a",
                load: Some("b"),
                save: Some("c"),
                seizure_wait: Some(100),
                totals: true,
            },
            tell: Some("d"),
        }),
    ),
    (
        "serve --config a --senders peer",
        Request::Serve(ServeOptions {
            session: SESSION,
            ports: PortOptions {
                senders: Senders::Peer,
                repeat: 0,
            },
        }),
    ),
    (
        "serve --config a --load b --save c --seizure-wait 501 --senders host --repeat 7 --totals",
        Request::Serve(ServeOptions {
            session: SessionOptions {
                config: "a",
                load: Some("b"),
                save: Some("c"),
                seizure_wait: Some(251),
                totals: true,
            },
            ports: PortOptions {
                senders: Senders::Host,
                repeat: 7,
            },
        }),
    ),
];

// Filters of a trunk, and emulated circuits.
const FILTERS_AND_CIRCUITS: [(&str, Request<'static>); 11] = [
    ("align", Request::Align(AlignOptions { totals: false })),
    (
        "align --totals",
        Request::Align(AlignOptions { totals: true }),
    ),
    ("crc4", Request::Crc4(CRC4)),
    (
        "crc4 --check",
        Request::Crc4(Crc4Options {
            check: true,
            ..CRC4
        }),
    ),
    (
        "crc4 --live",
        Request::Crc4(Crc4Options { live: true, ..CRC4 }),
    ),
    (
        "crc4 --reports b",
        Request::Crc4(Crc4Options {
            reports: Some("b"),
            ..CRC4
        }),
    ),
    (
        "crc4 --totals",
        Request::Crc4(Crc4Options {
            totals: true,
            ..CRC4
        }),
    ),
    ("satop a b", Request::Satop(SATOP)),
    (
        "satop a b --from c --size 288 --jitter 5 --rtp 97 --sequence 1234",
        Request::Satop(SatopOptions {
            from: Some("c"),
            size: 288,
            jitter: 5,
            rtp: Some(97),
            sequence: Some(1234),
            ..SATOP
        }),
    ),
    (
        "satop a b --fill ones",
        Request::Satop(SatopOptions {
            fill: Replacement::Ones,
            ..SATOP
        }),
    ),
    (
        "satop a b --clock own",
        Request::Satop(SatopOptions {
            own_clock: true,
            ..SATOP
        }),
    ),
];

// The words of a command line.
fn words_of(alloc: Global, line: &str) -> Result<Vec<String>, AllocError> {
    let mut words = Vec::new(alloc);
    words.push(String::from_str(alloc, "e1gw")?)?;
    for word in line.split_whitespace() {
        words.push(String::from_str(alloc, word)?)?;
    }
    Ok(words)
}

// Whether a command line asks for this, and for totals if this does.
fn asks(alloc: Global, line: &str, wanted: &Request<'_>) -> Result<bool, AllocError> {
    let words = words_of(alloc, line)?;
    match request_of(alloc, words.as_slice()) {
        Ok(Some(request)) => Ok(request == *wanted),
        _ => Ok(false),
    }
}

// How a command line is refused, if it is.
fn refusal_of(alloc: Global, line: &str) -> Result<Option<RefusalKind>, AllocError> {
    let words = words_of(alloc, line)?;
    match request_of(alloc, words.as_slice()) {
        Ok(_) => Ok(None),
        Err(refusal) => Ok(Some(refusal.kind())),
    }
}

#[test]
fn options_of_streams(rt: HostRuntime) -> Result<(), Fail> {
    for (options, stream) in [
        ("", StreamSpec::new(Law::A, CodecKind::G711, 8, 0, 0, 0, 20)),
        (
            "--law mu --ptime 10",
            StreamSpec::new(Law::Mu, CodecKind::G711, 0, 0, 0, 0, 10),
        ),
        (
            "--codec g726-16",
            StreamSpec::new(Law::A, CodecKind::G16, 96, 0, 0, 0, 20),
        ),
        (
            "--codec g726-24",
            StreamSpec::new(Law::A, CodecKind::G24, 96, 0, 0, 0, 20),
        ),
        (
            "--codec g726-32",
            StreamSpec::new(Law::A, CodecKind::G32, 96, 0, 0, 0, 20),
        ),
        (
            "--law mu --codec g726-40 --payload 17 --ptime 30 --ssrc 70000 --sequence 5 --timestamp 80000",
            StreamSpec::new(Law::Mu, CodecKind::G40, 17, 70000, 5, 80000, 30),
        ),
    ] {
        let stream = stream.ok_or("no stream")?;
        let line = format!(in rt.alloc(); "encode {options}")?;
        let request = Request::Encode(StreamOptions {
            stream,
            totals: false,
        });
        assert!(rt; asks(rt.alloc(), line.as_str(), &request)?, "at {line}");
        let line = format!(in rt.alloc(); "decode --totals {options}")?;
        let request = Request::Decode(StreamOptions {
            stream,
            totals: true,
        });
        assert!(rt; asks(rt.alloc(), line.as_str(), &request)?, "at {line}");
    }
    Ok(())
}

#[test]
fn options_of_sessions(rt: HostRuntime) -> Result<(), Fail> {
    for (line, request) in SESSIONS {
        assert!(rt; asks(rt.alloc(), line, &request)?, "at {line}");
    }
    Ok(())
}

#[test]
fn options_of_filters_and_circuits(rt: HostRuntime) -> Result<(), Fail> {
    for (line, request) in FILTERS_AND_CIRCUITS {
        assert!(rt; asks(rt.alloc(), line, &request)?, "at {line}");
    }
    Ok(())
}

#[test]
fn options_of_a_trunk(rt: HostRuntime) -> Result<(), Fail> {
    for (options, trunk) in TRUNKS {
        let line = format!(in rt.alloc(); "trunk --config a {options}")?;
        assert!(rt;
            asks(rt.alloc(), line.as_str(), &Request::Trunk(trunk))?,
            "at {line}"
        );
    }
    Ok(())
}

#[test]
fn what_is_refused(rt: HostRuntime) -> Result<(), Fail> {
    for (line, refusal) in [
        ("--version", RefusalKind::Help),
        ("help", RefusalKind::Help),
        ("trunk --help", RefusalKind::Help),
        ("align --law a", RefusalKind::Usage),
        ("trunk --config a --end 9", RefusalKind::Usage),
        ("trunk --config a --sockets 2-5", RefusalKind::Usage),
    ] {
        assert!(rt; refusal_of(rt.alloc(), line)? == Some(refusal), "at {line}");
    }
    Ok(())
}

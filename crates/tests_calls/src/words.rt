//! The words of the program: which request they make. What is accepted and refused was worked out by hand.

use command_line::{Request, With, request_of};
use lb_base::Memory;
use std::alloc::Global;
use std::test::Fail;

/// What a line asks for, whose words stand between single spaces.
fn asked(alloc: Global, line: &str) -> Result<Option<Request>, Memory> {
    let mut words = Vec::new(alloc);
    for word in line.split(' ') {
        words.push(String::from_str(alloc, word)?)?;
    }
    request_of(alloc, words.as_slice())
}

#[test]
fn accepted_words(rt: HostRuntime) -> Result<(), Fail> {
    let accepted = [
        (
            "run",
            Request::Run {
                with: None,
                json: false,
            },
        ),
        (
            "run --json",
            Request::Run {
                with: None,
                json: true,
            },
        ),
        (
            "run --with all",
            Request::Run {
                with: Some(With::All),
                json: false,
            },
        ),
        (
            "run --with=1 --json",
            Request::Run {
                with: Some(With::One(1)),
                json: true,
            },
        ),
        (
            "run --json --with 16",
            Request::Run {
                with: Some(With::One(16)),
                json: true,
            },
        ),
        ("judge", Request::Judge),
        ("check", Request::Check),
        (
            "make 1",
            Request::Make {
                transfers: 1,
                plan: false,
            },
        ),
        (
            "make 1 --plan",
            Request::Make {
                transfers: 1,
                plan: true,
            },
        ),
        (
            "make --plan 4000",
            Request::Make {
                transfers: 4000,
                plan: true,
            },
        ),
        ("live", Request::Live),
        ("flow", Request::Flow),
        ("log", Request::Log),
        ("audit", Request::Audit),
        ("mux", Request::Mux),
    ];
    for (line, request) in accepted {
        assert_eq!(rt; asked(rt.alloc(), line)?, Some(request), "at {line}");
    }
    Ok(())
}

#[test]
fn refused_words(rt: HostRuntime) -> Result<(), Fail> {
    let refused = [
        "",
        "-h",
        "--help",
        "-V",
        "--version",
        "help",
        "help run",
        "--",
        "walk",
        "run --help",
        "run run",
        "run --",
        "-- run",
        "check ",
        "check -",
        "make",
        "make --plan",
        "--plan make 3",
        "make 3 --pl",
        "make 3 --plan=",
        "make 3 --plan=3",
        "make 3 -plan",
        "make --plan --plan",
        "make --plan 3 --plan",
        "make --plan -- 3",
        "make --plan 3 4",
        "make --plan ",
        "make --plan 0",
        "make --plan 03",
        "make --plan -3",
        "make --plan 4001",
        "run --js",
        "run --json=1",
        "run --json --json",
        "run --wit 1",
        "run --with",
        "run --with=",
        "run --with ",
        "run --with 0",
        "run --with 01",
        "run --with 17",
        "run --with -1",
        "run --with -",
        "run --with --json",
        "run --with ALL",
        "run --with 1 --with 1",
        "run --with=1 --with 2",
        "run --with 1 2",
        "run --with -- 1",
        "--json run",
        "judge x",
        "mux --json",
    ];
    for line in refused {
        assert_eq!(rt; asked(rt.alloc(), line)?, None, "at {line}");
    }
    assert_eq!(rt; request_of(rt.alloc(), &[])?, None);
    Ok(())
}

//! Texts of turns: what they come to, and where they are refused.

use crate::common::{comes_to, is_refused, judge};
use crate::heads::{CHILDREN, FIRST, FIRST_REPORT, MOVES, QUEUES, READERS, SET, TRANSACTIONS};
use judge_call::Status;
use std::test::Fail;

#[test]
fn the_first_turns_come_to_their_report(rt: HostRuntime) -> Result<(), Fail> {
    let (status, sink) = judge(rt.alloc(), FIRST.as_bytes())?;
    assert_eq!(rt; status, Status::Done);
    assert_eq!(rt; sink.bytes(), FIRST_REPORT.as_bytes());
    Ok(())
}

/// Objects have the last values; queues give the front, and those that are empty are told; a commit fails behind one that wrote
/// a name that it read; a parent joins its child.
#[test]
fn turns_come_to_their_report(rt: HostRuntime) -> Result<(), Fail> {
    let texts = [
        (
            MOVES,
            "turn submit 1 move(\"a\", \"b\", 3)\nturn go 1 4\nturn end 1\n",
            "result 1 value 3\nobject \"a\" 7\nobject \"b\" 4\n",
        ),
        (
            MOVES,
            "turn submit 1 move(\"a\", \"b\", 3)\nturn go 1 1\n",
            "object \"a\" 10\nobject \"b\" 1\n",
        ),
        (
            QUEUES,
            "turn submit 1 f()\nturn go 1 2\n",
            "queue \"q\" [1, 2]\n",
        ),
        (
            QUEUES,
            "turn submit 1 f()\nturn go 1 4\nturn end 1\n",
            "result 1 value 1\nqueue \"none\" []\nqueue \"q\" [2]\n",
        ),
        (
            TRANSACTIONS,
            "turn submit 1 f(1)\nturn submit 2 f(2)\nturn go 1 1\nturn go 2 1\nturn go 1 1\nturn go 2 1\nturn end 2\nturn end 1\n",
            "result 1 value 1\nresult 2 value 0\nstore \"s\" 1\n",
        ),
        (
            TRANSACTIONS,
            "turn submit 1 f(1)\nturn submit 2 f(2)\nturn go 1 2\nturn go 2 2\nturn end 2\nturn end 1\n",
            "result 1 value 1\nresult 2 value 1\nstore \"s\" 2\n",
        ),
        (
            READERS,
            "turn submit 1 f(\"a\", \"b\")\nturn submit 2 f(\"c\", \"a\")\nturn go 1 1\nturn go 2 2\nturn go 1 1\nturn end 1\nturn end 2\n",
            "result 1 value 0\nresult 2 value 1\nstore \"a\" 1\n",
        ),
        (
            CHILDREN,
            "turn submit 1 parent()\nturn go 1 2\nturn go 1.1 0\nturn end 1.1\nturn go 1 1\nturn end 1\n",
            "result 1 value 9\nresult 1.1 value 8\nqueue \"q\" [1]\n",
        ),
    ];
    for (head, turns, results) in texts {
        assert!(rt;
            comes_to(rt.alloc(), head, turns, results)?,
            "not {results}"
        );
    }
    Ok(())
}

/// An end before the script is done, a go past its end, a request again, paths that aren't known, a join of a child that runs,
/// turns of an invocation that has ended; and texts that spell no turns.
#[test]
fn texts_are_refused_at_the_first_bad_line(rt: HostRuntime) -> Result<(), Fail> {
    let texts = [
        (
            SET,
            "turn submit 1 set(\"x\", 1)\nturn go 1 0\nturn end 1\n",
            "refused 9 illegal\n",
        ),
        (
            SET,
            "turn submit 1 set(\"x\", 1)\nturn go 1 2\nturn end 1\n",
            "refused 8 illegal\n",
        ),
        (
            SET,
            "turn submit 1 set(\"x\", 1)\nturn submit 1 set(\"x\", 1)\n",
            "refused 8 illegal\n",
        ),
        (SET, "turn go 7 0\n", "refused 7 illegal\n"),
        (SET, "turn end 1\n", "refused 7 illegal\n"),
        (
            SET,
            "turn submit 1 set(\"x\", 1)\nturn go 1 1\nturn end 1\nturn go 1 0\n",
            "refused 10 illegal\n",
        ),
        (
            SET,
            "turn submit 1 set(\"x\", 1)\nturn go 1 1\nturn end 1\nturn end 1\n",
            "refused 10 illegal\n",
        ),
        (
            CHILDREN,
            "turn submit 1 parent()\nturn go 1 2\nturn go 1.1 0\nturn go 1 1\n",
            "refused 15 illegal\n",
        ),
        (SET, "turn go 1 200001\n", "refused 7 range\n"),
        (SET, "turn go 1\n", "refused 7 syntax\n"),
        (SET, "turn submit 1 get(1)\n", "refused 7 name\n"),
        (SET, "turn submit 1 set(1)\n", "refused 7 arity\n"),
        (SET, "turn end 1", "refused 7 truncated\n"),
        (SET, "turn end 7\nsync\n", "refused 8 syntax\n"),
    ];
    for (head, turns, line) in texts {
        assert!(rt; is_refused(rt.alloc(), head, turns, line)?, "not {line}");
    }
    Ok(())
}

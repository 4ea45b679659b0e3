use crate::{ChunkView, Handler, Rule, RuleHandler, RuleList};
use evring::{Advice, Reason, Way};
use std::alloc::Global;
use std::test::Fail;
use streamkey::{Addr, End, Key, Proto, Toward};

fn end(last: u8, port: u16) -> End {
    End {
        addr: Addr::V4([10, 0, 0, last]),
        port,
    }
}

/// A handler of the rules that lines are.
fn handler_of(alloc: Global, lines: &[&str]) -> Result<RuleHandler, Fail> {
    let mut rules = RuleList::none(alloc);
    for line in lines {
        rules.push(Rule::parse(alloc, *line)?)?;
    }
    Ok(RuleHandler::new(rules))
}

/// What is asked of a handler, whichever it is.
#[derive(Clone, Copy)]
enum Asked<'a> {
    Created,
    Chunk(u64, &'a [u8], &'a [u8]),
    Ended,
}

/// The advice of a handler, through its trait alone. The conversation has the ports 40000 and 80.
fn advice_of<H: Handler>(handler: &H, asked: &Asked) -> Advice {
    let (key, toward) = Key::of(Proto::Tcp, end(1, 40_000), end(2, 80));
    match asked {
        Asked::Created => handler.created(1, &key, toward),
        Asked::Chunk(start, kept, shown) => {
            let view = ChunkView {
                conv: 1,
                way: Way::Back,
                key: &key,
                start: *start,
                gap: 0,
                over: 0,
                kept: *kept,
                shown: *shown,
            };
            handler.chunk(&view)
        }
        Asked::Ended => handler.ended(1, Reason::Closed),
    }
}

const KEEP: Advice = Advice {
    keep: true,
    discard: false,
    cutoff: None,
    priority: None,
};

const DISCARD: Advice = Advice {
    keep: false,
    discard: true,
    cutoff: None,
    priority: None,
};

const NOTHING: Advice = Advice {
    keep: false,
    discard: false,
    cutoff: None,
    priority: None,
};

fn cut(position: u64) -> Advice {
    Advice {
        cutoff: Some(position),
        ..NOTHING
    }
}

#[test]
fn one_rule_fits_or_not(rt: HostRuntime) -> Result<(), Fail> {
    let rows = [
        ("rule new any discard", Asked::Created, DISCARD),
        ("rule new port 80 discard", Asked::Created, DISCARD),
        ("rule new port 40000 discard", Asked::Created, DISCARD),
        ("rule new port 443 discard", Asked::Created, NOTHING),
        ("rule new any discard", Asked::Chunk(0, b"", b"a"), NOTHING),
        ("rule new any discard", Asked::Ended, NOTHING),
        ("rule data any keep", Asked::Created, NOTHING),
        ("rule data any keep", Asked::Chunk(7, b"", b"a"), KEEP),
        ("rule data any discard", Asked::Ended, NOTHING),
        ("rule data port 80 keep", Asked::Chunk(0, b"", b"a"), KEEP),
        (
            "rule data port 40000 keep",
            Asked::Chunk(0, b"", b"a"),
            KEEP,
        ),
        (
            "rule data port 53 keep",
            Asked::Chunk(0, b"", b"a"),
            NOTHING,
        ),
        (
            "rule data before 4 keep",
            Asked::Chunk(0, b"", b"abcdef"),
            KEEP,
        ),
        ("rule data before 4 keep", Asked::Chunk(3, b"", b"a"), KEEP),
        (
            "rule data before 4 keep",
            Asked::Chunk(4, b"", b"a"),
            NOTHING,
        ),
        (
            "rule data before 0 keep",
            Asked::Chunk(0, b"", b"a"),
            NOTHING,
        ),
        (
            "rule data from 4 keep",
            Asked::Chunk(3, b"", b"abc"),
            NOTHING,
        ),
        ("rule data from 4 keep", Asked::Chunk(4, b"", b"a"), KEEP),
        (
            "rule data begins 4745 keep",
            Asked::Chunk(0, b"", b"GE"),
            KEEP,
        ),
        (
            "rule data begins 4745 keep",
            Asked::Chunk(9, b"", b"GET /"),
            KEEP,
        ),
        (
            "rule data begins 4745 keep",
            Asked::Chunk(0, b"", b"G"),
            NOTHING,
        ),
        (
            "rule data begins 4745 keep",
            Asked::Chunk(0, b"", b" GET"),
            NOTHING,
        ),
        (
            "rule data begins 4745 keep",
            Asked::Chunk(1, b"G", b"ET"),
            KEEP,
        ),
        (
            "rule data begins 4745 keep",
            Asked::Chunk(2, b"GE", b"xx"),
            KEEP,
        ),
        (
            "rule data begins 4745 keep",
            Asked::Chunk(3, b"GET", b"x"),
            KEEP,
        ),
        (
            "rule data begins 4745 keep",
            Asked::Chunk(1, b"x", b"GET"),
            NOTHING,
        ),
        (
            "rule data begins 4745 keep",
            Asked::Chunk(1, b"G", b"e"),
            NOTHING,
        ),
    ];
    for (line, asked, expected) in &rows {
        let handler = handler_of(rt.alloc(), &[*line])?;
        let found = advice_of(&handler, asked);
        assert_eq!(rt; found, *expected, "of {line}");
    }
    Ok(())
}

#[test]
fn the_first_rule_that_fits_decides(rt: HostRuntime) -> Result<(), Fail> {
    let lines = [
        "rule data port 53 cutoff 1",
        "rule data begins 47 cutoff 2",
        "rule new any cutoff 3",
        "rule data any cutoff 4",
        "rule data begins 48 cutoff 5",
        "rule new any cutoff 6",
    ];
    let handler = handler_of(rt.alloc(), &lines)?;
    assert_eq!(rt; advice_of(&handler, &Asked::Created), cut(3));
    assert_eq!(rt; advice_of(&handler, &Asked::Chunk(0, b"", b"G")), cut(2));
    assert_eq!(rt; advice_of(&handler, &Asked::Chunk(0, b"", b"H")), cut(4));
    assert_eq!(rt; advice_of(&handler, &Asked::Ended), NOTHING);
    let silent = handler_of(rt.alloc(), &[])?;
    assert_eq!(rt; advice_of(&silent, &Asked::Created), NOTHING);
    assert_eq!(rt; advice_of(&silent, &Asked::Chunk(0, b"", b"G")), NOTHING);
    Ok(())
}

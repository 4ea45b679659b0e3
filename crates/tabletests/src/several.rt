// Several conversations of one core.
use crate::machine::expect_story;
use crate::steps::{DATA, MORE, NAMES, NOTHING, PLAIN, SECOND, Step, Story, WEB};
use std::test::Fail;

const A_RESET: Story<'static> = Story {
    name: "a reset, a late segment, and a conversation of the same key",
    steps: &[
        Step::Up(WEB, 1, 1000, "S", NOTHING),
        Step::Up(WEB, 2, 1001, "", ("abcdefghij", 10)),
        Step::Down(WEB, 3, 0, "R", NOTHING),
        Step::Up(WEB, 4, 1011, "", ("klmno", 5)),
        Step::Up(WEB, 5, 9000, "S", NOTHING),
        Step::Finish(5),
    ],
    turns: "load 1
new 1 tcp 10.0.0.1 40000 10.0.0.2 80
ready
back 1
ready
load 2
+10@0:0
ready
load 3
data 1 > 0 0 0 0 6162636465666768696a
end 1 reset
ready
back 2 ~10@1
ready
back 3
ready
load 4
ready
load 5
new 5 tcp 10.0.0.1 40000 10.0.0.2 80
ready
back 4
ready
finish
end 5 finish
full
back 5
over
",
    book: Some(
        "core 0
seg 1 1 1
ans 1 1 .
seg 1 2 2 +10@0:0
seg 1 3 3
end 1 3 reset
ans 1 2 . ~10@1
ans 1 3 .
seg 1 4 4
seg 5 5 5
ans 5 4 .
end 5 5 finish
ans 5 5 .
",
    ),
    ..PLAIN
};

/// A SYN that comes twice is no other conversation; one with another sequence number is.
const ONE_IS_REPLACED: Story<'static> = Story {
    name: "one is replaced",
    steps: &[
        Step::Up(WEB, 1, 1000, "S", NOTHING),
        Step::Up(WEB, 2, 1000, "S", NOTHING),
        Step::Up(WEB, 3, 1001, "", ("ab", 2)),
        Step::Up(WEB, 4, 5000, "S", NOTHING),
        Step::Up(WEB, 5, 5001, "", ("cd", 2)),
        Step::Finish(5),
    ],
    turns: "load 1
new 1 tcp 10.0.0.1 40000 10.0.0.2 80
ready
back 1
ready
load 2
ready
load 3
+2@0:0
ready
load 4
data 1 > 0 0 0 0 6162
end 1 replaced
new 4 tcp 10.0.0.1 40000 10.0.0.2 80
ready
back 2 ~2@1
ready
back 3
ready
back 4
ready
load 5
+2@2:0
ready
finish
data 4 > 0 0 0 0 6364
end 4 finish
full
back 5 ~2@3
full
back 6
over
",
    book: Some(
        "core 0
seg 1 1 1
ans 1 1 .
seg 1 2 2
seg 1 3 3 +2@0:0
end 1 4 replaced
seg 4 4 4
ans 1 2 . ~2@1
ans 1 3 .
ans 4 4 .
seg 4 5 5 +2@2:0
end 4 5 finish
ans 4 5 . ~2@3
ans 4 6 .
",
    ),
    ..PLAIN
};

const ONE_IS_IDLE: Story<'static> = Story {
    name: "one is idle",
    settings: "idle 1000\n",
    steps: &[
        Step::Up(DATA, 0, 0, "", ("a", 1)),
        Step::Up(DATA, SECOND, 0, "", ("b", 1)),
        Step::Finish(SECOND),
    ],
    turns: "load 1
+1@0:0
new 1 udp 10.0.0.1 40000 10.0.0.2 80
ready
back 1
ready
load 2
data 1 > 0 0 0 0 61
end 1 idle
+1@2:0
new 2 udp 10.0.0.1 40000 10.0.0.2 80
ready
back 2 ~1@1
ready
back 3
ready
back 4
ready
finish
data 2 > 0 0 0 0 62
end 2 finish
full
back 5 ~1@3
full
back 6
over
",
    book: Some(
        "core 0
seg 1 1 0 +1@0:0
ans 1 1 .
end 1 1000000000 idle
seg 2 2 1000000000 +1@2:0
ans 1 2 . ~1@1
ans 1 3 .
ans 2 4 .
end 2 1000000000 finish
ans 2 5 . ~1@3
ans 2 6 .
",
    ),
    ..PLAIN
};

/// A segment before the idle time has passed is late, and prolongs nothing; one right at its end opens a conversation.
const LATE_SEGMENTS: Story<'static> = Story {
    name: "late segments",
    settings: "idle 1000\n",
    steps: &[
        Step::Up(WEB, 0, 1000, "S", NOTHING),
        Step::Down(WEB, 1, 0, "R", NOTHING),
        Step::Up(WEB, SECOND, 1001, "", ("abc", 3)),
        Step::Up(WEB, SECOND + 1, 1004, "", ("d", 1)),
        Step::Finish(SECOND + 1),
    ],
    turns: "load 1
new 1 tcp 10.0.0.1 40000 10.0.0.2 80
ready
back 1
ready
load 2
end 1 reset
ready
back 2
ready
load 3
ready
load 4
+1@0:0
new 4 tcp 10.0.0.1 40000 10.0.0.2 80
ready
back 3
ready
finish
data 4 > 0 0 0 0 64
end 4 finish
full
back 4 ~1@1
full
back 5
over
",
    book: Some(
        "core 0
seg 1 1 0
ans 1 1 .
seg 1 2 1
end 1 1 reset
ans 1 2 .
seg 1 3 1000000000
seg 4 4 1000000001 +1@0:0
ans 4 3 .
end 4 1000000001 finish
ans 4 4 . ~1@1
ans 4 5 .
",
    ),
    ..PLAIN
};

#[test]
fn conversations_of_one_key(rt: HostRuntime) -> Result<(), Fail> {
    for story in &[A_RESET, ONE_IS_REPLACED, ONE_IS_IDLE, LATE_SEGMENTS] {
        expect_story(&rt, rt.alloc(), story)?;
    }
    Ok(())
}

const A_CLASS_MATTERS_MORE: Story<'static> = Story {
    name: "a class matters more",
    settings: "budget 10000 4000 3\nclass 2 - port 53\n",
    steps: &[
        Step::Up(DATA, 1, 0, "", ("a", 1000)),
        Step::Up(DATA, 2, 0, "", ("a", 1000)),
        Step::Up(DATA, 3, 0, "", ("a", 1000)),
        Step::Up(DATA, 4, 0, "", ("a", 1000)),
        Step::Up(DATA, 5, 0, "", ("a", 1000)),
        Step::Up(DATA, 6, 0, "", ("a", 1000)),
        Step::Up(DATA, 7, 0, "", ("a", 1000)),
        Step::Up(MORE, 8, 0, "", ("b", 1000)),
        Step::Finish(8),
    ],
    turns: "load 1
+1000@0:0
new 1 udp 10.0.0.1 40000 10.0.0.2 80
ready
back 1
ready
load 2
+1000@1:1000
ready
load 3
+1000@2:2000
ready
load 4
+1000@3:3000
ready
load 5
+1000@4:4000
ready
load 6
+1000@5:5000
ready
load 7
-1000@6:6000
ready
load 8
+1000@6:6000
new 8 udp 10.0.0.1 40000 10.0.0.2 53
ready
back 2
ready
finish
data 1 > 0 0 0 0 6000*61
end 1 finish
data 8 > 0 0 0 0 1000*62
end 8 finish
full
back 3 ~1000@7 ~1000@8 ~1000@9 ~1000@10 ~1000@11 ~1000@12
full
back 4
full
back 5 ~1000@13
full
back 6
over
",
    book: Some(
        "core 0
seg 1 1 1 +1000@0:0
ans 1 1 .
seg 1 2 2 +1000@1:1000
seg 1 3 3 +1000@2:2000
seg 1 4 4 +1000@3:3000
seg 1 5 5 +1000@4:4000
seg 1 6 6 +1000@5:5000
seg 1 7 7 -1000@6:6000
seg 8 8 8 +1000@6:6000
ans 8 2 .
end 1 8 finish
end 8 8 finish
ans 1 3 . ~1000@7 ~1000@8 ~1000@9 ~1000@10 ~1000@11 ~1000@12
ans 1 4 .
ans 8 5 . ~1000@13
ans 8 6 .
",
    ),
    ..PLAIN
};

/// The second one is idle before the others end by the order in which they opened.
const THE_CAPTURE_ENDS: Story<'static> = Story {
    name: "the capture ends",
    steps: &[
        Step::Up(DATA, 0, 0, "", ("a", 1)),
        Step::Up(MORE, 1, 0, "", ("b", 1)),
        Step::Up(NAMES, 2, 0, "", ("c", 1)),
        Step::Up(DATA, 3, 0, "", ("d", 1)),
        Step::Finish(300 * SECOND + 1),
    ],
    turns: "load 1
+1@0:0
new 1 udp 10.0.0.1 40000 10.0.0.2 80
ready
back 1
ready
load 2
+1@1:1
new 2 udp 10.0.0.1 40000 10.0.0.2 53
ready
back 2
ready
load 3
+1@2:2
new 3 udp 10.0.0.1 5000 10.0.0.2 53
ready
back 3
ready
load 4
+1@3:3
ready
finish
data 2 > 0 0 0 0 62
end 2 idle
data 1 > 0 0 0 0 6164
end 1 finish
data 3 > 0 0 0 0 63
end 3 finish
full
back 4 ~1@4
full
back 5
full
back 6 ~1@5 ~1@6
full
back 7
full
back 8 ~1@7
full
back 9
over
",
    book: Some(
        "core 0
seg 1 1 0 +1@0:0
ans 1 1 .
seg 2 2 1 +1@1:1
ans 2 2 .
seg 3 3 2 +1@2:2
ans 3 3 .
seg 1 4 3 +1@3:3
end 2 300000000001 idle
end 1 300000000001 finish
end 3 300000000001 finish
ans 2 4 . ~1@4
ans 2 5 .
ans 1 6 . ~1@5 ~1@6
ans 1 7 .
ans 3 8 . ~1@7
ans 3 9 .
",
    ),
    ..PLAIN
};

/// An entry begins only below 256 unanswered events. At the capture's end there are 516 events in all.
const TOO_MANY_EVENTS: Story<'static> = Story {
    name: "too many events",
    settings: "chunk 1\n",
    at_once: false,
    steps: &[
        Step::Quiet,
        Step::Flood(255),
        Step::Loud,
        Step::Up(DATA, 0, 0, "", ("a", 1)),
        Step::Up(MORE, 0, 0, "", ("b", 1)),
        Step::Answers(2),
        Step::Finish(0),
        Step::Answers(3),
        Step::Quiet,
        Step::Answers(510),
        Step::Loud,
        Step::Answers(1),
    ],
    turns: "unanswered 255
load 256
+1@0:0
new 256 udp 10.0.0.1 40000 10.0.0.2 80
data 256 > 0 0 0 0 61
ready
load 257
full
back 1
full
back 2
+1@1:1
new 257 udp 10.0.0.1 40000 10.0.0.2 53
data 257 > 0 0 0 0 62
ready
finish
full
back 3
full
back 4
end 1 finish
full
back 5
end 2 finish
full
unanswered 1
back 516
over
",
    ..PLAIN
};

#[test]
fn conversations_side_by_side(rt: HostRuntime) -> Result<(), Fail> {
    for story in &[A_CLASS_MATTERS_MORE, THE_CAPTURE_ENDS, TOO_MANY_EVENTS] {
        expect_story(&rt, rt.alloc(), story)?;
    }
    Ok(())
}

// One conversation of segments.
use crate::machine::expect_story;
use crate::steps::{DATA, NOTHING, PLAIN, SECOND, Step, Story, WEB};
use std::test::Fail;

const MILLISECOND: u64 = 1_000_000;

const AN_ORDINARY_CONNECTION: Story<'static> = Story {
    name: "an ordinary connection",
    steps: &[
        Step::Up(WEB, 100 * SECOND + MILLISECOND, 1000, "S", NOTHING),
        Step::Down(WEB, 100 * SECOND + 2 * MILLISECOND, 5000, "S", NOTHING),
        Step::Up(WEB, 100 * SECOND + 3 * MILLISECOND, 1001, "", NOTHING),
        Step::Up(WEB, 100 * SECOND + 4 * MILLISECOND, 1001, "", ("a", 78)),
        Step::Down(WEB, 100 * SECOND + 5 * MILLISECOND, 5001, "", ("b", 1460)),
        Step::Down(WEB, 100 * SECOND + 6 * MILLISECOND, 6461, "", ("b", 300)),
        Step::Down(WEB, 100 * SECOND + 7 * MILLISECOND, 6761, "F", NOTHING),
        Step::Up(WEB, 100 * SECOND + 8 * MILLISECOND, 1079, "F", NOTHING),
        Step::Down(WEB, 100 * SECOND + 9 * MILLISECOND, 6762, "", NOTHING),
        Step::Finish(100 * SECOND + 9 * MILLISECOND),
    ],
    turns: "load 1
new 1 tcp 10.0.0.1 40000 10.0.0.2 80
ready
back 1
ready
load 2
ready
load 3
ready
load 4
+78@0:0
ready
load 5
+1460@1:78
ready
load 6
+300@2:1538
ready
load 7
ready
load 8
data 1 > 0 0 0 0 78*61
data 1 < 0 0 0 0 1760*62
end 1 closed
ready
back 2 ~78@3
ready
back 3 ~1460@4 ~300@5
ready
back 4
ready
load 9
ready
finish
over
",
    book: Some(
        "core 0
seg 1 1 100001000000
ans 1 1 .
seg 1 2 100002000000
seg 1 3 100003000000
seg 1 4 100004000000 +78@0:0
seg 1 5 100005000000 +1460@1:78
seg 1 6 100006000000 +300@2:1538
seg 1 7 100007000000
seg 1 8 100008000000
end 1 100008000000 closed
ans 1 2 . ~78@3
ans 1 3 . ~1460@4 ~300@5
ans 1 4 .
seg 1 9 100009000000
",
    ),
    ..PLAIN
};

const OUT_OF_ORDER: Story<'static> = Story {
    name: "out of order",
    steps: &[
        Step::Up(WEB, 0, 99, "S", NOTHING),
        Step::Up(WEB, 1, 105, "", ("fgh", 3)),
        Step::Up(WEB, 2, 100, "", ("abcde", 5)),
        Step::Finish(2),
    ],
    turns: "load 1
new 1 tcp 10.0.0.1 40000 10.0.0.2 80
ready
back 1
ready
load 2
+3@0:0
ready
load 3
+5@1:3
ready
finish
data 1 > 0 0 0 0 6162636465666768
end 1 finish
full
back 2 ~5@2 ~3@3
full
back 3
over
",
    book: Some(
        "core 0
seg 1 1 0
ans 1 1 .
seg 1 2 1 +3@0:0
seg 1 3 2 +5@1:3
end 1 2 finish
ans 1 2 . ~5@2 ~3@3
ans 1 3 .
",
    ),
    ..PLAIN
};

const A_HOLE_FALLS_DUE: Story<'static> = Story {
    name: "a hole falls due",
    steps: &[
        Step::Up(WEB, 0, 99, "S", NOTHING),
        Step::Up(WEB, SECOND, 105, "", ("fghij", 5)),
        Step::Up(WEB, 3 * SECOND, 100, "", ("abcde", 5)),
        Step::Finish(3 * SECOND),
    ],
    turns: "load 1
new 1 tcp 10.0.0.1 40000 10.0.0.2 80
ready
back 1
ready
load 2
+5@0:0
ready
load 3
ready
finish
data 1 > 5 5 0 0 666768696a
end 1 finish
full
back 2 ~5@1
full
back 3
over
",
    book: Some(
        "core 0
seg 1 1 0
ans 1 1 .
seg 1 2 1000000000 +5@0:0
time 1 2000000000
seg 1 3 3000000000
end 1 3000000000 finish
ans 1 2 . ~5@1
ans 1 3 .
",
    ),
    ..PLAIN
};

/// Bytes that were passed or are held are not asked for again.
const BYTES_COME_TWICE: Story<'static> = Story {
    name: "bytes come twice",
    steps: &[
        Step::Up(WEB, 0, 99, "S", NOTHING),
        Step::Up(WEB, 1, 100, "", ("abcdefghij", 10)),
        Step::Up(WEB, 2, 109, "", ("j", 1)),
        Step::Up(WEB, 3, 104, "", ("efghijklmn", 10)),
        Step::Finish(3),
    ],
    turns: "load 1
new 1 tcp 10.0.0.1 40000 10.0.0.2 80
ready
back 1
ready
load 2
+10@0:0
ready
load 3
ready
load 4
+4@1:10
ready
finish
data 1 > 0 0 0 0 6162636465666768696a6b6c6d6e
end 1 finish
full
back 2 ~10@2 ~4@3
full
back 3
over
",
    book: Some(
        "core 0
seg 1 1 0
ans 1 1 .
seg 1 2 1 +10@0:0
seg 1 3 2
seg 1 4 3 +4@1:10
end 1 3 finish
ans 1 2 . ~10@2 ~4@3
ans 1 3 .
",
    ),
    ..PLAIN
};

const SEQUENCE_NUMBERS_WRAP: Story<'static> = Story {
    name: "sequence numbers wrap",
    steps: &[
        Step::Up(WEB, 0, 4_294_967_294, "S", NOTHING),
        Step::Up(WEB, 1, 4_294_967_295, "", ("abcd", 4)),
        Step::Up(WEB, 2, 3, "", ("ef", 2)),
        Step::Finish(2),
    ],
    turns: "load 1
new 1 tcp 10.0.0.1 40000 10.0.0.2 80
ready
back 1
ready
load 2
+4@0:0
ready
load 3
+2@1:4
ready
finish
data 1 > 0 0 0 0 616263646566
end 1 finish
full
back 2 ~4@2 ~2@3
full
back 3
over
",
    book: Some(
        "core 0
seg 1 1 0
ans 1 1 .
seg 1 2 1 +4@0:0
seg 1 3 2 +2@1:4
end 1 2 finish
ans 1 2 . ~4@2 ~2@3
ans 1 3 .
",
    ),
    ..PLAIN
};

const FAST: Story<'static> = Story {
    name: "fast",
    settings: "mode fast\n",
    steps: &[
        Step::Up(WEB, 0, 4_294_967_295, "S", NOTHING),
        Step::Up(WEB, 1, 0, "", ("a", 50)),
        Step::Up(WEB, 2, 100, "", ("b", 100)),
        Step::Up(WEB, 3, 50, "", ("c", 50)),
        Step::Finish(3),
    ],
    turns: "load 1
new 1 tcp 10.0.0.1 40000 10.0.0.2 80
ready
back 1
ready
load 2
+50@0:0
ready
load 3
+100@1:50
data 1 > 0 0 0 0 50*61
ready
back 2 ~50@2
ready
load 4
ready
finish
data 1 > 100 50 0 0 100*62
end 1 finish
full
back 3 ~100@3
full
back 4
over
",
    book: Some(
        "core 0
seg 1 1 0
ans 1 1 .
seg 1 2 1 +50@0:0
seg 1 3 2 +100@1:50
ans 1 2 . ~50@2
seg 1 4 3
end 1 3 finish
ans 1 3 . ~100@3
ans 1 4 .
",
    ),
    ..PLAIN
};

#[test]
fn segments_are_put_together(rt: HostRuntime) -> Result<(), Fail> {
    let stories = [
        AN_ORDINARY_CONNECTION,
        OUT_OF_ORDER,
        A_HOLE_FALLS_DUE,
        BYTES_COME_TWICE,
        SEQUENCE_NUMBERS_WRAP,
        FAST,
    ];
    for story in &stories {
        expect_story(&rt, rt.alloc(), story)?;
    }
    Ok(())
}

const CUT_AT_TEN: Story<'static> = Story {
    name: "cut at ten",
    settings: "cutoff default 10\n",
    steps: &[
        Step::Up(WEB, 0, 999, "S", NOTHING),
        Step::Up(WEB, 1, 1000, "", ("abcdefgh", 8)),
        Step::Up(WEB, 2, 1008, "", ("ijklmn", 6)),
        Step::Finish(2),
    ],
    turns: "load 1
new 1 tcp 10.0.0.1 40000 10.0.0.2 80
ready
back 1
ready
load 2
+8@0:0
ready
load 3
+2@1:8
ready
finish
data 1 > 0 0 0 0 6162636465666768696a
end 1 finish
full
back 2 ~8@2 ~2@3
full
back 3
over
",
    book: Some(
        "core 0
seg 1 1 0
ans 1 1 .
seg 1 2 1 +8@0:0
seg 1 3 2 +2@1:8
end 1 2 finish
ans 1 2 . ~8@2 ~2@3
ans 1 3 .
",
    ),
    ..PLAIN
};

const CUT_AT_ONCE: Story<'static> = Story {
    name: "cut at once",
    settings: "cutoff default 0\n",
    steps: &[
        Step::Up(WEB, 0, 999, "S", NOTHING),
        Step::Up(WEB, 1, 1000, "", ("abcdefgh", 8)),
        Step::Finish(1),
    ],
    turns: "load 1
new 1 tcp 10.0.0.1 40000 10.0.0.2 80
ready
back 1
ready
load 2
ready
finish
end 1 finish
full
back 2
over
",
    book: Some(
        "core 0
seg 1 1 0
ans 1 1 .
seg 1 2 1
end 1 1 finish
ans 1 2 .
",
    ),
    ..PLAIN
};

/// A segment covers two holes. The first is asked for and granted; the second is refused, and what comes behind it isn't asked for.
const A_RUN_IS_REFUSED: Story<'static> = Story {
    name: "a run is refused",
    settings: "budget 4096 4096 1\n",
    steps: &[
        Step::Up(DATA, 1, 0, "", ("d", 4080)),
        Step::Up(WEB, 2, 99, "S", NOTHING),
        Step::Up(WEB, 3, 105, "", ("b", 5)),
        Step::Up(WEB, 4, 115, "", ("c", 5)),
        Step::Up(WEB, 5, 100, "", ("a", 25)),
        Step::Finish(5),
    ],
    turns: "load 1
+4080@0:0
new 1 udp 10.0.0.1 40000 10.0.0.2 80
ready
back 1
ready
load 2
new 2 tcp 10.0.0.1 40000 10.0.0.2 80
ready
back 2
ready
load 3
+5@1:4080
ready
load 4
+5@2:4085
ready
load 5
+5@3:4090
-5@4:4095
ready
finish
data 1 > 0 0 0 0 4080*64
end 1 finish
data 2 > 0 0 0 0 61616161616262626262
data 2 > 15 5 0 0 6363636363
end 2 finish
full
back 3 ~4080@4
full
back 4
full
back 5 ~5@5 ~5@6
full
back 6 ~5@7
full
back 7
over
",
    book: Some(
        "core 0
seg 1 1 1 +4080@0:0
ans 1 1 .
seg 2 2 2
ans 2 2 .
seg 2 3 3 +5@1:4080
seg 2 4 4 +5@2:4085
seg 2 5 5 +5@3:4090 -5@4:4095
end 1 5 finish
end 2 5 finish
ans 1 3 . ~4080@4
ans 1 4 .
ans 2 5 . ~5@5 ~5@6
ans 2 6 . ~5@7
ans 2 7 .
",
    ),
    ..PLAIN
};

#[test]
fn bytes_are_cut_and_shed(rt: HostRuntime) -> Result<(), Fail> {
    for story in &[CUT_AT_TEN, CUT_AT_ONCE, A_RUN_IS_REFUSED] {
        expect_story(&rt, rt.alloc(), story)?;
    }
    Ok(())
}

/// Ten bytes, ten before them that cover half of them, and ten before all.
const THREE_SEGMENTS: &[Step<'static>] = &[
    Step::Up(WEB, 0, 4_294_967_295, "S", NOTHING),
    Step::Up(WEB, 1, 10, "", ("A", 10)),
    Step::Up(WEB, 2, 5, "", ("B", 10)),
    Step::Up(WEB, 3, 0, "", ("C", 10)),
    Step::Finish(3),
];

const THE_FIRST_BYTE_STAYS: Story<'static> = Story {
    name: "the first byte stays",
    settings: "policy first\n",
    steps: THREE_SEGMENTS,
    turns: "load 1
new 1 tcp 10.0.0.1 40000 10.0.0.2 80
ready
back 1
ready
load 2
+10@0:0
ready
load 3
+5@1:10
ready
load 4
+5@2:15
ready
finish
data 1 > 0 0 0 0 4343434343424242424241414141414141414141
end 1 finish
full
back 2 ~5@3 ~5@4 ~10@5
full
back 3
over
",
    ..PLAIN
};

const THE_LAST_BYTE_STAYS: Story<'static> = Story {
    name: "the last byte stays",
    settings: "policy last\n",
    turns: "load 1
new 1 tcp 10.0.0.1 40000 10.0.0.2 80
ready
back 1
ready
load 2
+10@0:0
ready
load 3
+5@1:10
ready
load 4
+5@2:15
ready
finish
data 1 > 0 0 0 0 4343434343434343434342424242424141414141
end 1 finish
full
back 2 ~5@3 ~5@4 ~10@5
full
back 3
over
",
    ..THE_FIRST_BYTE_STAYS
};

/// Ten bytes, five from the same position, and ten before them.
const THE_SAME_START: &[Step<'static>] = &[
    Step::Up(WEB, 0, 4_294_967_295, "S", NOTHING),
    Step::Up(WEB, 1, 10, "", ("A", 10)),
    Step::Up(WEB, 2, 10, "", ("B", 5)),
    Step::Up(WEB, 3, 0, "", ("C", 10)),
    Step::Finish(3),
];

const A_START_BEFORE_STAYS: Story<'static> = Story {
    name: "a start that isn't behind stays",
    settings: "policy bsd\n",
    steps: THE_SAME_START,
    turns: "load 1
new 1 tcp 10.0.0.1 40000 10.0.0.2 80
ready
back 1
ready
load 2
+10@0:0
ready
load 3
ready
load 4
+10@1:10
ready
finish
data 1 > 0 0 0 0 4343434343434343434341414141414141414141
end 1 finish
full
back 2 ~10@2 ~10@3
full
back 3
over
",
    ..PLAIN
};

const AN_EQUAL_START_GOES: Story<'static> = Story {
    name: "an equal start goes",
    settings: "policy linux\n",
    turns: "load 1
new 1 tcp 10.0.0.1 40000 10.0.0.2 80
ready
back 1
ready
load 2
+10@0:0
ready
load 3
ready
load 4
+10@1:10
ready
finish
data 1 > 0 0 0 0 4343434343434343434342424242424141414141
end 1 finish
full
back 2 ~10@2 ~10@3
full
back 3
over
",
    ..A_START_BEFORE_STAYS
};

#[test]
fn policies_decide_which_byte_stays(rt: HostRuntime) -> Result<(), Fail> {
    let stories = [
        THE_FIRST_BYTE_STAYS,
        THE_LAST_BYTE_STAYS,
        A_START_BEFORE_STAYS,
        AN_EQUAL_START_GOES,
    ];
    for story in &stories {
        expect_story(&rt, rt.alloc(), story)?;
    }
    Ok(())
}

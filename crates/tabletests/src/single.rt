// One conversation of datagrams.
use crate::machine::expect_story;
use crate::steps::{DATA, How, NAMES, PLAIN, SECOND, Said, Step, Story};
use std::test::Fail;

const NO_RECORD: Story<'static> = Story {
    name: "no record",
    steps: &[Step::Finish(0)],
    turns: "finish
over
",
    book: Some("core 0\n"),
    ..PLAIN
};

const ONE_DATAGRAM: Story<'static> = Story {
    name: "one datagram",
    steps: &[
        Step::Up(NAMES, 1_000_000_005, 0, "", ("hi", 2)),
        Step::Finish(1_000_000_005),
    ],
    turns: "load 1
+2@0:0
new 1 udp 10.0.0.1 5000 10.0.0.2 53
ready
back 1
ready
finish
data 1 > 0 0 0 0 6869
end 1 finish
full
back 2 ~2@1
full
back 3
over
",
    book: Some(
        "core 0
seg 1 1 1000000005 +2@0:0
ans 1 1 .
end 1 1000000005 finish
ans 1 2 . ~2@1
ans 1 3 .
",
    ),
    ..PLAIN
};

/// The budget was found to have moved: the same ask comes again, and the book has the look that decided it.
const A_BUDGET_THAT_MOVED: Story<'static> = Story {
    name: "a budget that moved",
    steps: &[
        Step::Next(How::Moved),
        Step::Up(NAMES, 5, 0, "", ("hi", 2)),
        Step::Finish(5),
    ],
    turns: "load 1
moved 2@0:0
+2@0:0
new 1 udp 10.0.0.1 5000 10.0.0.2 53
ready
back 1
ready
finish
data 1 > 0 0 0 0 6869
end 1 finish
full
back 2 ~2@1
full
back 3
over
",
    book: Some(
        "core 0
seg 1 1 5 +2@0:0
ans 1 1 .
end 1 5 finish
ans 1 2 . ~2@1
ans 1 3 .
",
    ),
    ..PLAIN
};

const OVERLAP: Story<'static> = Story {
    name: "overlap",
    settings: "chunk 4\noverlap 2\n",
    steps: &[
        Step::Up(DATA, 1, 0, "", ("abc", 3)),
        Step::Up(DATA, 2, 0, "", ("def", 3)),
        Step::Up(DATA, 3, 0, "", ("ghi", 3)),
        Step::Finish(3),
    ],
    turns: "load 1
+3@0:0
new 1 udp 10.0.0.1 40000 10.0.0.2 80
ready
back 1
ready
load 2
+3@1:3
+2@2:6
data 1 > 0 0 0 0 616263646566
ready
back 2 ~3@3 ~3@4
ready
load 3
+3@5:2
ready
finish
data 1 > 6 0 2 0 6566676869
end 1 finish
full
back 3 ~2@6 ~3@7
full
back 4
over
",
    book: Some(
        "core 0
seg 1 1 1 +3@0:0
ans 1 1 .
seg 1 2 2 +3@1:3 +2@2:6
ans 1 2 . ~3@3 ~3@4
seg 1 3 3 +3@5:2
end 1 3 finish
ans 1 3 . ~2@6 ~3@7
ans 1 4 .
",
    ),
    ..PLAIN
};

const A_COPY_IS_REFUSED: Story<'static> = Story {
    name: "a copy is refused",
    settings: "budget 4096 4096 1\nchunk 4096\noverlap 1\n",
    steps: &[
        Step::Up(DATA, 1, 0, "", ("a", 4096)),
        Step::Up(DATA, 2, 0, "", ("b", 1)),
        Step::Finish(2),
    ],
    turns: "load 1
+4096@0:0
-1@1:4096
new 1 udp 10.0.0.1 40000 10.0.0.2 80
data 1 > 0 0 0 0 4096*61
ready
back 1
ready
back 2 ~4096@1
ready
load 2
+1@2:0
ready
finish
data 1 > 4096 0 0 0 62
end 1 finish
full
back 3 ~1@3
full
back 4
over
",
    book: Some(
        "core 0
seg 1 1 1 +4096@0:0 -1@1:4096
ans 1 1 .
ans 1 2 . ~4096@1
seg 1 2 2 +1@2:0
end 1 2 finish
ans 1 3 . ~1@3
ans 1 4 .
",
    ),
    ..PLAIN
};

const A_FLUSH_FALLS_DUE: Story<'static> = Story {
    name: "a flush falls due",
    settings: "flush 500\n",
    steps: &[
        Step::Up(DATA, 0, 0, "", ("a", 1)),
        Step::Up(DATA, 2 * SECOND, 0, "", ("b", 1)),
        Step::Finish(2 * SECOND),
    ],
    turns: "load 1
+1@0:0
new 1 udp 10.0.0.1 40000 10.0.0.2 80
ready
back 1
ready
load 2
data 1 > 0 0 0 0 61
+1@2:0
ready
back 2 ~1@1
ready
finish
data 1 > 1 0 0 0 62
end 1 finish
full
back 3 ~1@3
full
back 4
over
",
    book: Some(
        "core 0
seg 1 1 0 +1@0:0
ans 1 1 .
time 1 500000000
seg 1 2 2000000000 +1@2:0
ans 1 2 . ~1@1
end 1 2000000000 finish
ans 1 3 . ~1@3
ans 1 4 .
",
    ),
    ..PLAIN
};

#[test]
fn one_conversation_comes_to_its_turns(rt: HostRuntime) -> Result<(), Fail> {
    let stories = [
        NO_RECORD,
        ONE_DATAGRAM,
        A_BUDGET_THAT_MOVED,
        OVERLAP,
        A_COPY_IS_REFUSED,
        A_FLUSH_FALLS_DUE,
    ];
    for story in &stories {
        expect_story(&rt, rt.alloc(), story)?;
    }
    Ok(())
}

const A_CHUNK_IS_KEPT: Story<'static> = Story {
    name: "a chunk is kept",
    settings: "chunk 4\n",
    says: &[(2, Said::Keep)],
    steps: &[
        Step::Up(DATA, 1, 0, "", ("abcd", 4)),
        Step::Up(DATA, 2, 0, "", ("efgh", 4)),
        Step::Finish(2),
    ],
    turns: "load 1
+4@0:0
new 1 udp 10.0.0.1 40000 10.0.0.2 80
data 1 > 0 0 0 0 61626364
ready
back 1
ready
back 2
ready
load 2
+4@1:4
data 1 > 4 0 0 4 65666768
ready
back 3 ~4@2 ~4@3
ready
finish
end 1 finish
full
back 4
over
",
    book: Some(
        "core 0
seg 1 1 1 +4@0:0
ans 1 1 .
ans 1 2 k
seg 1 2 2 +4@1:4
ans 1 3 . ~4@2 ~4@3
end 1 2 finish
ans 1 4 .
",
    ),
    ..PLAIN
};

const CHUNKS_ARE_KEPT: Story<'static> = Story {
    name: "chunks are kept",
    settings: "chunk 4\n",
    says: &[(2, Said::Keep), (3, Said::Keep)],
    steps: &[
        Step::Up(DATA, 1, 0, "", ("abcd", 4)),
        Step::Up(DATA, 2, 0, "", ("efgh", 4)),
        Step::Up(DATA, 3, 0, "", ("ijkl", 4)),
        Step::Finish(3),
    ],
    turns: "load 1
+4@0:0
new 1 udp 10.0.0.1 40000 10.0.0.2 80
data 1 > 0 0 0 0 61626364
ready
back 1
ready
back 2
ready
load 2
+4@1:4
data 1 > 4 0 0 4 65666768
ready
back 3
ready
load 3
+4@2:8
data 1 > 8 0 0 8 696a6b6c
ready
back 4 ~4@3 ~4@4 ~4@5
ready
finish
end 1 finish
full
back 5
over
",
    book: Some(
        "core 0
seg 1 1 1 +4@0:0
ans 1 1 .
ans 1 2 k
seg 1 2 2 +4@1:4
ans 1 3 k
seg 1 3 3 +4@2:8
ans 1 4 . ~4@3 ~4@4 ~4@5
end 1 3 finish
ans 1 5 .
",
    ),
    ..PLAIN
};

const A_KEPT_CHUNK_IS_NOT_SHOWN_AGAIN: Story<'static> = Story {
    name: "a kept chunk is not shown again",
    settings: "chunk 4\n",
    says: &[(2, Said::Keep)],
    steps: &[Step::Up(DATA, 1, 0, "", ("abcd", 4)), Step::Finish(1)],
    turns: "load 1
+4@0:0
new 1 udp 10.0.0.1 40000 10.0.0.2 80
data 1 > 0 0 0 0 61626364
ready
back 1
ready
back 2
ready
finish
~4@1
end 1 finish
full
back 3
over
",
    book: Some(
        "core 0
seg 1 1 1 +4@0:0
ans 1 1 .
ans 1 2 k
end 1 1 finish ~4@1
ans 1 3 .
",
    ),
    ..PLAIN
};

const A_CHUNK_COMES_BACK_AFTER_THE_END: Story<'static> = Story {
    name: "a chunk comes back after the end",
    settings: "chunk 4\n",
    at_once: false,
    says: &[(2, Said::Keep)],
    steps: &[
        Step::Up(DATA, 1, 0, "", ("abcd", 4)),
        Step::Finish(1),
        Step::Answers(3),
    ],
    turns: "load 1
+4@0:0
new 1 udp 10.0.0.1 40000 10.0.0.2 80
data 1 > 0 0 0 0 61626364
ready
finish
end 1 finish
full
back 1
full
back 2
~4@1
full
back 3
over
",
    book: Some(
        "core 0
seg 1 1 1 +4@0:0
end 1 1 finish
ans 1 1 .
ans 1 2 k ~4@1
ans 1 3 .
",
    ),
    ..PLAIN
};

const A_STREAM_IS_CUT: Story<'static> = Story {
    name: "a stream is cut",
    settings: "chunk 4\n",
    says: &[(2, Said::CutAt(6))],
    steps: &[
        Step::Up(DATA, 1, 0, "", ("abcd", 4)),
        Step::Up(DATA, 2, 0, "", ("efgh", 4)),
        Step::Finish(2),
    ],
    turns: "load 1
+4@0:0
new 1 udp 10.0.0.1 40000 10.0.0.2 80
data 1 > 0 0 0 0 61626364
ready
back 1
ready
back 2 ~4@1
ready
load 2
+2@2:0
ready
finish
data 1 > 4 0 0 0 6566
end 1 finish
full
back 3 ~2@3
full
back 4
over
",
    book: Some(
        "core 0
seg 1 1 1 +4@0:0
ans 1 1 .
ans 1 2 c6 ~4@1
seg 1 2 2 +2@2:0
end 1 2 finish
ans 1 3 . ~2@3
ans 1 4 .
",
    ),
    ..PLAIN
};

const THE_REST_IS_DISCARDED: Story<'static> = Story {
    name: "the rest is discarded",
    settings: "chunk 4\n",
    says: &[(1, Said::Discard)],
    steps: &[
        Step::Up(DATA, 1, 0, "", ("abcd", 4)),
        Step::Up(DATA, 2, 0, "", ("efgh", 4)),
        Step::Finish(2),
    ],
    turns: "load 1
+4@0:0
new 1 udp 10.0.0.1 40000 10.0.0.2 80
data 1 > 0 0 0 0 61626364
ready
back 1
ready
back 2 ~4@1
ready
load 2
ready
finish
end 1 finish
full
back 3
over
",
    book: Some(
        "core 0
seg 1 1 1 +4@0:0
ans 1 1 d
ans 1 2 . ~4@1
seg 1 2 2
end 1 2 finish
ans 1 3 .
",
    ),
    ..PLAIN
};

/// The second datagram comes before the advice, the third after it; so there is a gap between the first and the third.
const A_PRIORITY_RISES: Story<'static> = Story {
    name: "a priority rises",
    settings: "budget 4096 2048 2\n",
    at_once: false,
    says: &[(1, Said::Priority(1))],
    steps: &[
        Step::Up(DATA, 1, 0, "", ("a", 3072)),
        Step::Up(DATA, 2, 0, "", ("b", 1000)),
        Step::Answers(1),
        Step::Up(DATA, 3, 0, "", ("c", 1000)),
        Step::Up(DATA, 4, 0, "", ("d", 100)),
        Step::Finish(4),
        Step::Answers(3),
    ],
    turns: "load 1
+3072@0:0
new 1 udp 10.0.0.1 40000 10.0.0.2 80
ready
load 2
-1000@1:3072
ready
back 1
ready
load 3
+1000@1:3072
data 1 > 0 0 0 0 3072*61
ready
load 4
-100@2:4072
ready
finish
data 1 > 4072 1000 0 0 1000*63
end 1 finish
full
back 2 ~3072@2
full
back 3 ~1000@3
full
back 4
over
",
    book: Some(
        "core 0
seg 1 1 1 +3072@0:0
seg 1 2 2 -1000@1:3072
ans 1 1 p1
seg 1 3 3 +1000@1:3072
seg 1 4 4 -100@2:4072
end 1 4 finish
ans 1 2 . ~3072@2
ans 1 3 . ~1000@3
ans 1 4 .
",
    ),
    ..PLAIN
};

#[test]
fn advice_is_taken(rt: HostRuntime) -> Result<(), Fail> {
    let stories = [
        A_CHUNK_IS_KEPT,
        CHUNKS_ARE_KEPT,
        A_KEPT_CHUNK_IS_NOT_SHOWN_AGAIN,
        A_CHUNK_COMES_BACK_AFTER_THE_END,
        A_STREAM_IS_CUT,
        THE_REST_IS_DISCARDED,
        A_PRIORITY_RISES,
    ];
    for story in &stories {
        expect_story(&rt, rt.alloc(), story)?;
    }
    Ok(())
}

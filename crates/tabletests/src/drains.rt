// A table in drain mode: every charge that it holds comes out once, in whatever order.
use crate::machine::expect_story;
use crate::steps::{DATA, How, MORE, NOTHING, PLAIN, Said, Step, Story, WEB};
use std::test::Fail;

const IT_GIVES_UP: Story<'static> = Story {
    name: "it gives up",
    settings: "chunk 4\n",
    at_once: false,
    says: &[(2, Said::Keep)],
    steps: &[
        Step::Up(DATA, 1, 0, "", ("abcd", 4)),
        Step::Up(WEB, 2, 99, "S", NOTHING),
        Step::Up(WEB, 3, 105, "", ("fgh", 3)),
        Step::Up(WEB, 4, 100, "", ("ab", 2)),
        Step::GivesUp,
        Step::Up(WEB, 5, 102, "", ("cd", 2)),
        Step::Finish(5),
        Step::Answers(3),
    ],
    turns: "load 1
+4@0:0
new 1 udp 10.0.0.1 40000 10.0.0.2 80
data 1 > 0 0 0 0 61626364
ready
load 2
new 2 tcp 10.0.0.1 40000 10.0.0.2 80
ready
load 3
+3@1:4
ready
load 4
+2@2:7
ready
gives up
drained 2 of 5
ready
load 5
ready
finish
full
back 1
full
back 2
drained 1 of 4
full
back 3
over
",
    ..PLAIN
};

const AN_ASK_IS_VOID: Story<'static> = Story {
    name: "an ask is void",
    steps: &[
        Step::Up(DATA, 1, 0, "", ("ab", 2)),
        Step::Next(How::AskIsVoid),
        Step::Up(DATA, 2, 0, "", ("cd", 2)),
        Step::Finish(2),
    ],
    turns: "load 1
+2@0:0
new 1 udp 10.0.0.1 40000 10.0.0.2 80
ready
back 1
ready
load 2
void 2
drained 1 of 2
ready
finish
over
",
    ..PLAIN
};

const A_RELEASE_IS_STILL_HEARD_OF: Story<'static> = Story {
    name: "a release is still heard of",
    settings: "chunk 4\n",
    at_once: false,
    says: &[(2, Said::Keep)],
    steps: &[
        Step::Up(DATA, 1, 0, "", ("abcd", 4)),
        Step::Up(MORE, 2, 0, "", ("ef", 2)),
        Step::Finish(2),
        Step::Answers(1),
        Step::Next(How::GivesUpBefore),
        Step::Answers(5),
    ],
    turns: "load 1
+4@0:0
new 1 udp 10.0.0.1 40000 10.0.0.2 80
data 1 > 0 0 0 0 61626364
ready
load 2
+2@1:4
new 2 udp 10.0.0.1 40000 10.0.0.2 53
ready
finish
end 1 finish
data 2 > 0 0 0 0 6566
end 2 finish
full
back 1
full
back 2
gives up
drained 1 of 4
full
back 3
full
back 4
full
back 5 ~2@3
full
back 6
over
",
    ..PLAIN
};

const THE_STAMPS_ARE_SPENT: Story<'static> = Story {
    name: "the stamps are spent",
    first_stamp: 2_147_483_647,
    steps: &[
        Step::Up(DATA, 1, 0, "", ("ab", 2)),
        Step::Up(DATA, 2, 0, "", ("cd", 2)),
        Step::Up(DATA, 3, 0, "", ("ef", 2)),
        Step::Finish(3),
    ],
    turns: "load 1
+2@2147483647:0
new 1 udp 10.0.0.1 40000 10.0.0.2 80
ready
back 1
ready
load 2
spent 2@2147483648:2
drained 1 of 2
ready
load 3
ready
finish
over
spent at 2147483648
",
    ..PLAIN
};

const NO_STAMP_IS_LEFT: Story<'static> = Story {
    name: "no stamp is left",
    first_stamp: 2_147_483_648,
    steps: &[Step::Up(DATA, 1, 0, "", ("ab", 2)), Step::Finish(1)],
    turns: "load 1
spent 2@2147483648:0
ready
finish
over
spent at 2147483648
",
    ..PLAIN
};

#[test]
fn every_charge_comes_out(rt: HostRuntime) -> Result<(), Fail> {
    let stories = [
        IT_GIVES_UP,
        AN_ASK_IS_VOID,
        A_RELEASE_IS_STILL_HEARD_OF,
        THE_STAMPS_ARE_SPENT,
        NO_STAMP_IS_LEFT,
    ];
    for story in &stories {
        expect_story(&rt, rt.alloc(), story)?;
    }
    Ok(())
}

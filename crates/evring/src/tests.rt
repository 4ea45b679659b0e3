use crate::{Advice, Answer, Event, Frees, Kept, Reason};
use chunkpart::Chunk;
use prio_budget::PlainCharge;
use std::test::Fail;

#[test]
fn kept_chunks_come_back_in_order(rt: HostRuntime) -> Result<(), Fail> {
    let mut kept: Kept<PlainCharge> = Kept::none(rt.alloc());
    for start in 0..3u64 {
        let mut items = Vec::new(rt.alloc());
        items.push(Chunk::new(rt.alloc(), start, 0, None))?;
        if kept.append(Kept::of(items)).is_err() {
            return Err("the chunks came back".into());
        }
    }
    let answer = Answer {
        advice: Advice::none(),
        frees: Frees::of(Vec::new(rt.alloc())),
        kept,
        drained: false,
    };
    let chunks = answer.kept.into_vec();
    assert_eq!(rt; chunks.len(), 3);
    for (i, chunk) in chunks.iter().enumerate() {
        assert_eq!(rt; chunk.start(), i as u64);
    }
    Ok(())
}

#[test]
fn an_end_carries_no_chunk(rt: HostRuntime) {
    let event: Event<PlainCharge> = Event::Ended {
        conv: 7,
        reason: Reason::Finish,
    };
    assert!(rt; matches!(&event, Event::Ended { conv: 7, .. }));
}

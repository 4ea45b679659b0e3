use crate::{
    FileHead, FrameBytes, FrameFault, Frames, HeadFault, Link, Memory, Next, Tail, put_frame,
    put_head,
};
use std::alloc::{AllocError, Global};
use std::test::Fail;

/// A file header with this magic, these two bytes as its major version and these four as its link type.
fn head_with(magic: [u8; 4], major: [u8; 2], link: [u8; 4]) -> [u8; 24] {
    let mut head = [0; 24];
    for i in 0..4 {
        head[i] = magic[i];
        head[20 + i] = link[i];
    }
    head[4] = major[0];
    head[5] = major[1];
    head
}

fn head(big: bool, nanos: bool, link: Link) -> Result<FileHead, HeadFault> {
    Ok(FileHead { big, nanos, link })
}

#[test]
fn heads_are_read_by_magic_version_and_link(rt: HostRuntime) {
    let little = [0xd4, 0xc3, 0xb2, 0xa1];
    let whole = head_with(little, [2, 0], [1, 0, 0, 0]);
    assert_eq!(rt; FileHead::read(&whole[..23]), Err(HeadFault::Short));
    assert_eq!(rt; FileHead::read(&[]), Err(HeadFault::Short));
    let rows = [
        (
            head_with(little, [2, 0], [1, 0, 0, 0]),
            head(false, false, Link::Ethernet),
        ),
        (
            head_with([0xa1, 0xb2, 0xc3, 0xd4], [0, 2], [0, 0, 0, 101]),
            head(true, false, Link::Raw),
        ),
        (
            head_with([0xa1, 0xb2, 0x3c, 0x4d], [0, 2], [0, 0, 0, 113]),
            head(true, true, Link::Cooked),
        ),
        (
            head_with([0x4d, 0x3c, 0xb2, 0xa1], [2, 0], [20, 1, 0, 0]),
            head(false, true, Link::Cooked2),
        ),
        (
            head_with(little, [2, 0], [1, 0, 0, 0x10]),
            head(false, false, Link::Ethernet),
        ),
        (
            head_with(little, [2, 0], [2, 0, 0, 0]),
            Err(HeadFault::Link),
        ),
        (
            head_with(little, [1, 0], [2, 0, 0, 0]),
            Err(HeadFault::Major),
        ),
        (
            head_with(little, [0, 2], [1, 0, 0, 0]),
            Err(HeadFault::Major),
        ),
        (
            head_with([0xd4, 0xc3, 0xb2, 0xa2], [1, 0], [1, 0, 0, 0]),
            Err(HeadFault::Magic),
        ),
        (
            head_with([0x0a, 0x0d, 0x0d, 0x0a], [1, 0], [1, 0, 0, 0]),
            Err(HeadFault::PcapNg),
        ),
    ];
    for (bytes, want) in rows {
        assert_eq!(rt; FileHead::read(&bytes), want);
    }
}

/// A little-endian record header with this captured length, and so many bytes behind it.
fn record(
    alloc: Global,
    seconds: u8,
    fraction: u32,
    len: u32,
    held: usize,
) -> Result<Vec<u8>, AllocError> {
    let mut bytes = Vec::new(alloc);
    bytes.extend_from_slice(&[seconds, 0, 0, 0])?;
    bytes.extend_from_slice(&fraction.to_le_bytes())?;
    bytes.extend_from_slice(&len.to_le_bytes())?;
    bytes.extend_from_slice(&[99, 0, 0, 0])?;
    for _ in 0..held {
        bytes.push(b'a')?;
    }
    Ok(bytes)
}

/// Reads on, and notes offset, moment and length of each record.
fn read_on(
    frames: &mut Frames,
    seen: &mut Vec<(u64, u64, usize)>,
) -> Result<Option<FrameFault>, Memory> {
    for _ in 0..4 {
        let next = frames.next()?;
        match next {
            Next::Whole(frame) => seen.push((
                frame.at,
                frame.moment,
                frame.bytes.as_slice().len(),
            ))?,
            Next::More => return Ok(None),
            Next::Fault(fault) => return Ok(Some(fault)),
        }
    }
    Ok(None)
}

/// How a stream ends that has no fault.
fn tail_of(mut frames: Frames) -> Result<Option<Tail>, Memory> {
    let next = frames.next()?;
    match next {
        Next::More => Ok(Some(frames.finish())),
        Next::Whole(_) => Ok(None),
        Next::Fault(_) => Ok(None),
    }
}

fn frames_with(alloc: Global, nanos: bool, most_frames: u32, most_bytes: u64) -> Frames {
    let head = FileHead {
        big: false,
        nanos,
        link: Link::Ethernet,
    };
    Frames::new(alloc, head, most_frames, most_bytes)
}

const MANY: u32 = 4_194_304;

const LONG: u64 = 4_294_967_296;

#[test]
fn records_end_as_they_should(rt: HostRuntime) -> Result<(), Fail> {
    let alloc = rt.alloc();
    let too_big = Some(FrameFault::TooBig {
        at: 100,
        len: 262_145,
    });
    let too_long = Some(FrameFault::TooLong);
    let cut = Some(Tail::Cut { bytes: 26 });
    // most records, most bytes, length of the second record, bytes of it that are there, records read, fault, tail
    let rows = [
        (MANY, LONG, 60, 76, 2, None, Some(Tail::Whole)),
        (MANY, LONG, 60, 26, 1, None, cut),
        (MANY, LONG, 262_145, 16, 1, too_big, None),
        (
            MANY,
            LONG,
            262_145,
            15,
            1,
            None,
            Some(Tail::Cut { bytes: 15 }),
        ),
        (1, LONG, 60, 0, 1, None, Some(Tail::Whole)),
        (1, LONG, 60, 1, 1, too_long, None),
        (MANY, 126, 60, 26, 1, None, cut),
        (MANY, 125, 60, 26, 1, too_long, None),
        (MANY, 115, 60, 15, 1, None, Some(Tail::Cut { bytes: 15 })),
        (MANY, 115, 60, 16, 1, too_long, None),
        (MANY, 116, 262_145, 76, 1, too_big, None),
        (MANY, 115, 262_145, 76, 1, too_long, None),
        (MANY, 176, 60, 76, 2, None, Some(Tail::Whole)),
        (MANY, 175, 60, 76, 1, too_long, None),
    ];
    for (most_frames, most_bytes, len, there, count, fault, tail) in rows {
        let mut frames = frames_with(alloc, true, most_frames, most_bytes);
        let mut seen = Vec::new(alloc);
        frames.feed(&record(alloc, 1, 5, 60, 60)?)?;
        let second = record(alloc, 2, 0, len, 60)?;
        if there <= second.len() {
            frames.feed(&second[..there])?;
        }
        assert_eq!(rt; read_on(&mut frames, &mut seen)?, fault, "{len} {there}");
        assert_eq!(rt; seen.len(), count);
        assert_eq!(rt; seen.first(), Some(&(24, 1_000_000_005, 60)));
        if fault.is_some() {
            frames.feed(&second)?;
            assert_eq!(rt; read_on(&mut frames, &mut seen)?, fault, "again");
        }
        assert_eq!(rt; tail_of(frames)?, tail, "{len} {there}");
    }
    Ok(())
}

#[test]
fn the_longest_record_is_read(rt: HostRuntime) -> Result<(), Fail> {
    let alloc = rt.alloc();
    let mut frames = frames_with(alloc, true, MANY, LONG);
    let mut seen = Vec::new(alloc);
    frames.feed(&record(alloc, 0, 0, 262_144, 262_144)?)?;
    assert_eq!(rt; read_on(&mut frames, &mut seen)?, None);
    assert_eq!(rt; seen.as_slice(), [(24, 0, 262_144)].as_slice());
    assert_eq!(rt; tail_of(frames)?, Some(Tail::Whole));
    Ok(())
}

/// A written capture of three records, and 23 bytes of a fourth one with 40 bytes.
fn four_records(alloc: Global) -> Result<Vec<u8>, Memory> {
    let mut file = Vec::new(alloc);
    put_head(&mut file)?;
    put_frame(&mut file, 1, 5, b"abc")?;
    put_frame(&mut file, 2, 2_000_000, b"")?;
    put_frame(&mut file, 3, 999_999, &[7; 40])?;
    let end = file.len() + 23;
    put_frame(&mut file, 4, 0, &[8; 40])?;
    file.truncate(end);
    Ok(file)
}

#[test]
fn pieces_change_nothing(rt: HostRuntime) -> Result<(), Fail> {
    let alloc = rt.alloc();
    let file = four_records(alloc)?;
    assert_eq!(rt; file.len(), 138);
    let body = &file[24..];
    let want = [
        (24, 1_000_005_000, 3),
        (43, 4_000_000_000, 0),
        (59, 3_999_999_000, 40),
    ];
    for cut in 0..=body.len() {
        let mut frames = frames_with(alloc, false, MANY, LONG);
        let mut seen = Vec::new(alloc);
        for piece in [&body[..cut], &body[cut..]] {
            frames.feed(piece)?;
            assert_eq!(rt; read_on(&mut frames, &mut seen)?, None);
        }
        assert_eq!(rt; seen.as_slice(), want.as_slice(), "cut at {cut}");
        assert_eq!(rt; tail_of(frames)?, Some(Tail::Cut { bytes: 23 }));
    }
    for size in [1, 2, 19, 20] {
        let mut frames = frames_with(alloc, false, MANY, LONG);
        let mut seen = Vec::new(alloc);
        for piece in body.chunks(size) {
            frames.feed(piece)?;
            assert_eq!(rt; read_on(&mut frames, &mut seen)?, None);
        }
        assert_eq!(rt; seen.as_slice(), want.as_slice(), "pieces of {size}");
        assert_eq!(rt; tail_of(frames)?, Some(Tail::Cut { bytes: 23 }));
    }
    Ok(())
}

#[test]
fn two_records_are_the_most(rt: HostRuntime) -> Result<(), Fail> {
    let alloc = rt.alloc();
    let mut frames = frames_with(alloc, false, 2, LONG);
    let mut seen = Vec::new(alloc);
    let two = record(alloc, 1, 0, 3, 3)?;
    frames.feed(&two)?;
    frames.feed(&two)?;
    frames.feed(b"a")?;
    assert_eq!(rt; read_on(&mut frames, &mut seen)?, Some(FrameFault::TooLong));
    let want = [(24, 1_000_000_000, 3), (43, 1_000_000_000, 3)];
    assert_eq!(rt; seen.as_slice(), want.as_slice());
    Ok(())
}

/// A big-endian capture with nanoseconds: one frame of Ethernet with a datagram of 2 bytes.
const ONE_DATAGRAM: [u8; 84] = [
    0xa1, 0xb2, 0x3c, 0x4d, 0, 2, 0, 4, 0, 0, 0, 0, 0, 0, 0, 0, 0, 4, 0, 0, 0, 0, 0, 1, // file
    0, 0, 0, 1, 0, 0, 0, 5, 0, 0, 0, 0x2c, 0, 0, 0, 0x2c, // record
    2, 0, 0, 0, 0, 2, 2, 0, 0, 0, 0, 1, 8, 0, // Ethernet
    0x45, 0, 0, 0x1e, 0, 0, 0, 0, 0x40, 0x11, 0, 0, 10, 0, 0, 1, 10, 0, 0, 2, // IPv4
    0x13, 0x88, 0, 0x35, 0, 0x0a, 0, 0, 0x68, 0x69, // UDP
];

#[test]
fn a_big_endian_capture_with_nanoseconds_is_read(rt: HostRuntime) -> Result<(), Fail> {
    let alloc = rt.alloc();
    assert_eq!(rt;
        FileHead::read(&ONE_DATAGRAM),
        head(true, true, Link::Ethernet)
    );
    let big = FileHead {
        big: true,
        nanos: true,
        link: Link::Ethernet,
    };
    let mut frames = Frames::new(alloc, big, MANY, LONG);
    frames.feed(&ONE_DATAGRAM[24..])?;
    let next = frames.next()?;
    let Next::Whole(frame) = next else {
        return Err("a record stands there")?;
    };
    assert_eq!(rt; (frame.at, frame.moment), (24, 1_000_000_005));
    assert_eq!(rt; frame.bytes.as_slice(), &ONE_DATAGRAM[40..]);
    assert_eq!(rt; tail_of(frames)?, Some(Tail::Whole));
    Ok(())
}

#[test]
fn captures_are_written(rt: HostRuntime) -> Result<(), Fail> {
    let mut file = Vec::new(rt.alloc());
    put_head(&mut file)?;
    put_frame(&mut file, 0x0102_0304, 5, b"hi")?;
    let want = [
        0xd4, 0xc3, 0xb2, 0xa1, 2, 0, 4, 0, 0, 0, 0, 0, 0, 0, 0, 0, 0, 0, 4, 0, 1, 0, 0, 0, // file
        4, 3, 2, 1, 5, 0, 0, 0, 2, 0, 0, 0, 2, 0, 0, 0, 0x68, 0x69, // record
    ];
    assert_eq!(rt; file.as_slice(), want.as_slice());
    Ok(())
}

#[test]
fn bytes_are_given_back(rt: HostRuntime) -> Result<(), Fail> {
    let bytes = FrameBytes::of([1, 2, 3].to_vec(rt.alloc())?);
    assert_eq!(rt; bytes.as_slice(), [1, 2, 3].as_slice());
    assert_eq!(rt; bytes.into_vec().as_slice(), [1, 2, 3].as_slice());
    Ok(())
}

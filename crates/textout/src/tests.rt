use crate::{
    Memory, put_count, put_dotted, put_groups, put_hex, put_number, put_numbers, put_text,
    read_number,
};

const ALL: &str =
    "old word 0 18446744073709551615 n=7 1 2 30 00017f80ff 0.10.200.255 2001:0db8:0000:0000:0000:00fe:dcba:9876\n";

const DOCUMENTED: [u8; 16] = [
    0x20, 0x01, 0x0d, 0xb8, 0, 0, 0, 0, 0, 0, 0, 0xfe, 0xdc, 0xba, 0x98, 0x76,
];

fn put_all(out: &mut Vec<u8>) -> Result<(), Memory> {
    put_text(out, "word ")?;
    put_number(out, 0)?;
    put_text(out, " ")?;
    put_number(out, u64::MAX)?;
    put_count(out, " n=", 7)?;
    put_numbers(out, &[1, 2, 30])?;
    put_text(out, " ")?;
    put_hex(out, &[0, 1, 0x7f, 0x80, 0xff])?;
    put_text(out, " ")?;
    put_dotted(out, [0, 10, 200, 255])?;
    put_text(out, " ")?;
    put_groups(out, &DOCUMENTED)?;
    put_text(out, "\n")
}

#[test]
fn each_text_stands_behind_what_was_there(rt: HostRuntime) -> Result<(), Memory> {
    let mut out = Vec::from_slice(rt.alloc(), b"old ")?;
    put_all(&mut out)?;
    assert_eq!(rt; out.as_slice(), ALL.as_bytes());
    Ok(())
}

/// Some 64 KiB of bytes, as many as a record has.
#[test]
fn many_bytes_have_their_digits(rt: HostRuntime) -> Result<(), Memory> {
    let mut out = Vec::new(rt.alloc());
    let bytes = [0xa5u8; 65536];
    put_hex(&mut out, &bytes)?;
    assert_eq!(rt; out.len(), 131072);
    assert_eq!(rt; out[131070], b'a');
    assert_eq!(rt; out[131071], b'5');
    Ok(())
}

#[test]
fn numbers_are_read(rt: HostRuntime) {
    assert!(rt; read_number(b"00042", 10, 5, 65535) == Some(42));
    assert!(rt; read_number(b"65536", 10, 5, 65535) == None);
    assert!(rt; read_number(b"18446744073709551615", 10, 20, u64::MAX) == Some(u64::MAX));
    assert!(rt; read_number(b"18446744073709551616", 10, 20, u64::MAX) == None);
    assert!(rt; read_number(b"FfFf", 16, 4, 65535) == Some(65535));
}

ghost use Rattle.std.specs.Prelude.{◌<◌, ◌^◌};

use crate::{Seq, after, place};
use std::process::Abort;
use std::test::Fail;

#[test]
fn sums_wrap(rt: HostRuntime) -> Result<(), Fail> {
    let cases = [
        (0, 0, 0),
        (1, 2, 3),
        (4_294_967_294, 1, 4_294_967_295),
        (4_294_967_295, 1, 0),
        (4_294_967_295, 4_294_967_295, 4_294_967_294),
    ];
    for (seq, n, sum) in cases {
        assert_eq!(rt; after(Seq(seq), n), Seq(sum), "{seq} {n}");
    }
    Ok(())
}

fn expect_place(rt: &impl Abort, base: u32, seq: u32, front: u64, position: i64)
    requires { front < 2 ^ 62 }
{
    let found = place(Seq(base), Seq(seq), front);
    assert_eq!(rt; found, position, "{base} {seq} {front}");
}

#[test]
fn positions_are_those_of_the_numbers(rt: HostRuntime) {
    expect_place(&rt, 4_294_967_295, 4_294_967_295, 0, 0);
    expect_place(&rt, 4_294_967_295, 3, 4, 4);
    expect_place(&rt, 1000, 1009, 10, 9);
    expect_place(&rt, 1000, 999, 0, -1);
    expect_place(&rt, 0, 2_147_483_647, 0, 2_147_483_647);
    expect_place(&rt, 0, 2_147_483_648, 0, -2_147_483_648);
    expect_place(&rt, 7, 7, 4_294_967_296, 4_294_967_296);
    expect_place(&rt, 7, 6, 4_294_967_296, 4_294_967_295);
    expect_place(&rt, 7, 8, 4_294_967_295, 4_294_967_297);
    expect_place(&rt, 0, 0, 2_147_483_647, 0);
    expect_place(&rt, 0, 0, 2_147_483_648, 0);
    expect_place(&rt, 0, 0, 2_147_483_649, 4_294_967_296);
    let last = 4_611_686_018_427_387_903;
    expect_place(&rt, 0, 4_294_967_295, last, 4_611_686_018_427_387_903);
}

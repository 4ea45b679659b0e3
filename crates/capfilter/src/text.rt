// The text of a primitive.
ghost use Rattle.std.specs.Prelude.{◌≡◌, ◌++◌, OnOk};
ghost use Rattle.capfilter.specs.Canonical.{address_text, test_text, side_text, prim_text};

use crate::end_test::EndTest;
use crate::prim::{Primitive, Side};
use streamkey::Addr;
use textout::{Memory, put_dotted, put_groups, put_number, put_text};

fn put_address(out: &mut Vec<u8>, address: Addr) -> Result<(), Memory>
    ensures { OnOk result (out.new.items ≡ out.old.items ++ address_text address) }
{
    match address {
        Addr::V4(bytes) => put_dotted(out, bytes),
        Addr::V6(bytes) => put_groups(out, &bytes),
    }
}

#[tactic(auto, unfolding(crate::specs::Canonical::test_text))]
fn put_test(out: &mut Vec<u8>, test: EndTest) -> Result<(), Memory>
    ensures { OnOk result (out.new.items ≡ out.old.items ++ test_text test) }
{
    match test {
        EndTest::Host(address) => {
            put_text(out, "host ")?;
            put_address(out, address)
        }
        EndTest::Net(address, bits) => {
            put_text(out, "net ")?;
            put_address(out, address)?;
            put_text(out, "/")?;
            put_number(out, u64::from(bits))
        }
        EndTest::Port(port) => {
            put_text(out, "port ")?;
            put_number(out, u64::from(port))
        }
    }
}

fn side_of(side: Side) -> &'static str
    ensures { result.now ≡ side_text side }
{
    match side {
        Side::Either => "",
        Side::Source => "src ",
        Side::Target => "dst ",
    }
}

fn put_of_end(out: &mut Vec<u8>, side: Side, test: EndTest) -> Result<(), Memory>
    ensures { OnOk result (out.new.items ≡ out.old.items ++ (side_text side ++ test_text test)) }
{
    put_text(out, side_of(side))?;
    put_test(out, test)
}

/// Appends the text of a primitive.
pub(crate) fn put_prim(out: &mut Vec<u8>, prim: Primitive) -> Result<(), Memory>
    ensures { OnOk result (out.new.items ≡ out.old.items ++ prim_text prim) }
{
    match prim {
        Primitive::Tcp => put_text(out, "tcp"),
        Primitive::Udp => put_text(out, "udp"),
        Primitive::Ip => put_text(out, "ip"),
        Primitive::Ip6 => put_text(out, "ip6"),
        Primitive::OfEnd(side, test) => put_of_end(out, side, test),
    }
}

// The bytes of a frame.
ghost use Rattle.std.specs.Prelude.{◌≡◌, ◌+◌, ◌≤◌, ◌<◌, ◌^◌, ◌++◌, ◌∷◌, [], OnOk, length, true, false, if◌then◌else◌};
ghost use Rattle.byteorder.specs.Endian.{big_bytes};
ghost use Rattle.pcapgen.specs.Flows.{is_tcp as is_of_tcp};
ghost use Rattle.pcapgen.specs.Frame.{client, server, byte_at as byte_of, source, target, ports, tcp_header, udp_header, ip_header, ethernet_header, transport_header, payload, frame};

use crate::flow::is_tcp;
use crate::{Drawn, Memory};

/// Ethernet II: target, source, IPv4.
const ETHERNET: [u8; 14] = [2, 0, 0, 0, 0, 2, 2, 0, 0, 0, 0, 1, 0x08, 0];

/// Of TCP: acknowledgment, data offset of five words, ACK and PSH, window, checksum, urgent pointer.
const TCP_REST: [u8; 12] = [0, 0, 0, 0, 0x50, 0x18, 0xff, 0xff, 0, 0, 0, 0];

/// The sequence number of position 0 of the first flow: near the greatest, so that flows wrap.
const FIRST_SEQUENCE: u32 = 4294960000;

/// One end of a flow: its address and its port.
#[derive(Clone, Copy, Debug, PartialEq, Eq)]
struct FlowEnd {
    addr: [u8; 4],
    port: u16,
}

/// What starts the flow.
fn client_of(flow: u32) -> FlowEnd
    requires { flow < 64 }
    ensures addr { result.addr ≡ (client flow).addr }
    ensures port { result.port ≡ (client flow).port }
{
    FlowEnd {
        addr: [10, 0, 0, flow as u8 + 1],
        port: 40000 + flow as u16,
    }
}

/// What answers it.
fn server_of(flow: u32) -> FlowEnd
    ensures addr { result.addr ≡ (server flow).addr }
    ensures port { result.port ≡ (server flow).port }
{
    let port = if flow % 4 < 2 { 80 } else { 443 };
    FlowEnd {
        addr: [10, 1, 0, 1],
        port,
    }
}

/// Where the record comes from.
fn source_of(drawn: &Drawn) -> FlowEnd
    requires { drawn.now.flow < 64 }
    ensures addr { result.addr ≡ (source drawn.now).addr }
    ensures port { result.port ≡ (source drawn.now).port }
{
    if drawn.way == 0 {
        client_of(drawn.flow)
    } else {
        server_of(drawn.flow)
    }
}

/// Where it goes.
fn target_of(drawn: &Drawn) -> FlowEnd
    requires { drawn.now.flow < 64 }
    ensures addr { result.addr ≡ (target drawn.now).addr }
    ensures port { result.port ≡ (target drawn.now).port }
{
    if drawn.way == 0 {
        server_of(drawn.flow)
    } else {
        client_of(drawn.flow)
    }
}

/// Appends a number in two bytes.
fn put_two(out: &mut Vec<u8>, number: u16) -> Result<(), Memory>
    ensures { OnOk result (out.new.items ≡ out.old.items ++ big_bytes 2 number) }
{
    out.extend_from_slice(&number.to_be_bytes())?;
    Ok(())
}

/// Appends a number in four bytes.
fn put_four(out: &mut Vec<u8>, number: u32) -> Result<(), Memory>
    ensures { OnOk result (out.new.items ≡ out.old.items ++ big_bytes 4 number) }
{
    out.extend_from_slice(&number.to_be_bytes())?;
    Ok(())
}

/// Appends both ports.
fn put_ports(out: &mut Vec<u8>, drawn: &Drawn) -> Result<(), Memory>
    requires { drawn.now.flow < 64 }
    ensures { OnOk result (out.new.items ≡ out.old.items ++ ports drawn.now) }
{
    put_two(out, source_of(drawn).port)?;
    put_two(out, target_of(drawn).port)?;
    Ok(())
}

/// Appends a header of TCP, with ACK and PSH.
#[tactic(auto, unfolding(crate::specs::Frame::tcp_header))]
fn put_tcp(out: &mut Vec<u8>, drawn: &Drawn, begin: u32) -> Result<(), Memory>
    requires flow { drawn.now.flow < 64 }
    requires way { drawn.now.way < 2 }
    ensures { OnOk result (out.new.items ≡ out.old.items ++ tcp_header drawn.now begin) }
{
    let first = FIRST_SEQUENCE + 100 * drawn.flow + drawn.way;
    put_ports(out, drawn)?;
    put_four(out, first.wrapping_add(begin))?;
    out.extend_from_slice(&TCP_REST)?;
    Ok(())
}

/// Appends a header of UDP.
#[tactic(auto, unfolding(crate::specs::Frame::udp_header))]
fn put_udp(out: &mut Vec<u8>, drawn: &Drawn) -> Result<(), Memory>
    requires flow { drawn.now.flow < 64 }
    requires len { drawn.now.len ≤ 200 }
    ensures { OnOk result (out.new.items ≡ out.old.items ++ udp_header drawn.now) }
{
    put_ports(out, drawn)?;
    put_two(out, 8 + drawn.len as u16)?;
    put_two(out, 0)?;
    Ok(())
}

/// The length of the header behind that of IP, and the protocol's number.
fn transport_of(drawn: &Drawn) -> (u16, u8)
    ensures len { result.0 ≡ (if is_of_tcp drawn.now.flow then 20 else 8) }
    ensures proto { result.1 ≡ (if is_of_tcp drawn.now.flow then 6 else 17) }
{
    if is_tcp(drawn.flow) { (20, 6) } else { (8, 17) }
}

/// Appends a header of IPv4.
#[tactic(auto, unfolding(crate::specs::Frame::ip_header))]
fn put_ip(out: &mut Vec<u8>, drawn: &Drawn) -> Result<(), Memory>
    requires flow { drawn.now.flow < 64 }
    requires len { drawn.now.len ≤ 200 }
    ensures { OnOk result (out.new.items ≡ out.old.items ++ ip_header drawn.now) }
{
    let (header, proto) = transport_of(drawn);
    out.extend_from_slice(&[0x45, 0])?;
    put_two(out, 20 + header + drawn.len as u16)?;
    put_two(out, 0)?;
    put_two(out, 0)?;
    out.extend_from_slice(&[64, proto])?;
    put_two(out, 0)?;
    out.extend_from_slice(&source_of(drawn).addr)?;
    out.extend_from_slice(&target_of(drawn).addr)?;
    Ok(())
}

/// Appends the header behind that of IP.
fn put_transport(out: &mut Vec<u8>, drawn: &Drawn, begin: u32) -> Result<(), Memory>
    requires flow { drawn.now.flow < 64 }
    requires way { drawn.now.way < 2 }
    requires len { drawn.now.len ≤ 200 }
    ensures { OnOk result (out.new.items ≡ out.old.items ++ transport_header drawn.now begin) }
{
    if is_tcp(drawn.flow) {
        put_tcp(out, drawn, begin)
    } else {
        put_udp(out, drawn)
    }
}

/// The byte of a payload at a position of its direction.
fn byte_at(drawn: &Drawn, at: u32) -> u8
    requires flow { drawn.now.flow < 64 }
    requires way { drawn.now.way < 2 }
    requires at { at + 1000 < 2 ^ 32 }
    ensures { result ≡ byte_of drawn.now at }
{
    ((at + 7 * drawn.flow + 13 * drawn.way) % 251) as u8
}

/// Appends the payload that begins at a position.
#[tactic(auto, unfolding(crate::specs::Frame::payload))]
fn put_payload(out: &mut Vec<u8>, drawn: &Drawn, begin: u32) -> Result<(), Memory>
    requires flow { drawn.now.flow < 64 }
    requires way { drawn.now.way < 2 }
    requires len { drawn.now.len ≤ 200 }
    requires room { begin + 1200 < 2 ^ 32 }
    ensures { OnOk result (out.new.items ≡ out.old.items ++ payload drawn.now begin) }
{
    for at in begin..begin + drawn.len {
        out.push(byte_at(drawn, at))?;
    }
    Ok(())
}

/// Appends the frame of a record whose payload begins at a position.
#[tactic(auto, using(crate::proofs::Lengths::frame_short), unfolding(crate::specs::Frame::frame))]
pub(crate) fn put_frame(out: &mut Vec<u8>, drawn: &Drawn, begin: u32) -> Result<(), Memory>
    requires flow { drawn.now.flow < 64 }
    requires way { drawn.now.way < 2 }
    requires len { drawn.now.len ≤ 200 }
    requires room { begin + 1200 < 2 ^ 32 }
    ensures ok { OnOk result (out.new.items ≡ out.old.items ++ frame drawn.now begin) }
    ensures short { length (frame drawn.now begin) ≤ 254 }
{
    out.extend_from_slice(&ETHERNET)?;
    put_ip(out, drawn)?;
    put_transport(out, drawn, begin)?;
    put_payload(out, drawn, begin)?;
    Ok(())
}

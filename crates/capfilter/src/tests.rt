use crate::{Filter, FilterError, FilterFault, FilterKind};
use std::alloc::{AllocError, Global};
use std::test::Fail;
use streamkey::{Addr, End, Key, Proto};

#[test]
fn texts_have_their_canonical_forms(rt: HostRuntime) -> Result<(), Fail> {
    let rows = [
        ("tcp", "tcp"),
        ("udp", "udp"),
        ("ip", "ip"),
        ("ip6", "ip6"),
        (" \ttcp\t ", "tcp"),
        ("((tcp))", "tcp"),
        ("not not tcp", "not not tcp"),
        ("tcp or udp and port 53", "((tcp or udp) and port 53)"),
        ("tcp and udp or ip", "((tcp and udp) or ip)"),
        ("tcp and (udp or ip)", "(tcp and (udp or ip))"),
        ("not tcp and udp", "(not tcp and udp)"),
        ("not (tcp and udp)", "not (tcp and udp)"),
        ("(tcp)and(not(udp))", "(tcp and not udp)"),
        ("tcp or udp or ip or ip6", "(((tcp or udp) or ip) or ip6)"),
        ("host 010.0.0.1", "host 10.0.0.1"),
        ("src host 000.1.02.003", "src host 0.1.2.3"),
        ("dst host 255.255.255.255", "dst host 255.255.255.255"),
        ("net 10.1.2.3/8", "net 10.1.2.3/8"),
        ("src net 0.0.0.0/0", "src net 0.0.0.0/0"),
        ("dst net 192.168.0.1/32", "dst net 192.168.0.1/32"),
        ("port 0", "port 0"),
        ("src port 00080", "src port 80"),
        ("dst port 65535", "dst port 65535"),
        ("host ::", "host 0000:0000:0000:0000:0000:0000:0000:0000"),
        ("host ::1", "host 0000:0000:0000:0000:0000:0000:0000:0001"),
        ("host 1::", "host 0001:0000:0000:0000:0000:0000:0000:0000"),
        (
            "host 2001:dB8::fF:1",
            "host 2001:0db8:0000:0000:0000:0000:00ff:0001",
        ),
        (
            "host 1:2:3:4:5:6:7:8",
            "host 0001:0002:0003:0004:0005:0006:0007:0008",
        ),
        (
            "host 1:2:3:4:5:6:7::",
            "host 0001:0002:0003:0004:0005:0006:0007:0000",
        ),
        (
            "host ::2:3:4:5:6:7:8",
            "host 0000:0002:0003:0004:0005:0006:0007:0008",
        ),
        (
            "host 1:2:3::5:6:7:8",
            "host 0001:0002:0003:0000:0005:0006:0007:0008",
        ),
        (
            "net fe80::/10",
            "net fe80:0000:0000:0000:0000:0000:0000:0000/10",
        ),
        (
            "net ::1/128",
            "net 0000:0000:0000:0000:0000:0000:0000:0001/128",
        ),
    ];
    for (text, canonical) in rows {
        let filter = Filter::parse(rt.alloc(), text)?;
        let printed = filter.to_string(rt.alloc())?;
        assert_eq!(rt; printed.as_str(), canonical);
        let again = Filter::parse(rt.alloc(), canonical)?;
        let printed_again = again.copy()?.to_string(rt.alloc())?;
        assert_eq!(rt; printed_again.as_str(), canonical);
    }
    Ok(())
}

/// The fault of a text.
fn fault_of(alloc: Global, text: &str) -> Option<FilterError> {
    match Filter::parse(alloc, text) {
        Ok(_) => None,
        Err(error) => Some(error),
    }
}

fn fault(at: u64, kind: FilterKind) -> Option<FilterError> {
    Some(FilterError::Fault(FilterFault { at, kind }))
}

#[test]
fn texts_have_their_faults(rt: HostRuntime) {
    let rows = [
        ("", 0, FilterKind::End),
        ("   ", 3, FilterKind::End),
        ("\t", 1, FilterKind::End),
        ("not", 3, FilterKind::End),
        ("(", 1, FilterKind::End),
        ("(tcp", 4, FilterKind::End),
        ("tcp and", 7, FilterKind::End),
        ("tcp or ", 7, FilterKind::End),
        ("src", 3, FilterKind::End),
        ("src host", 8, FilterKind::End),
        ("port", 4, FilterKind::End),
        ("net ", 4, FilterKind::End),
        ("(tcp and not udp", 16, FilterKind::End),
        ("port x", 5, FilterKind::Value),
        ("port 65536", 5, FilterKind::Value),
        ("port 000080", 5, FilterKind::Value),
        ("port 8o", 5, FilterKind::Value),
        ("port and", 5, FilterKind::Value),
        ("port (", 5, FilterKind::Value),
        ("host )", 5, FilterKind::Value),
        ("src host 80", 9, FilterKind::Value),
        ("host 256.0.0.1", 5, FilterKind::Value),
        ("host 1.2.3", 5, FilterKind::Value),
        ("host 1.2.3.4.5", 5, FilterKind::Value),
        ("host 0001.2.3.4", 5, FilterKind::Value),
        ("host 1..2.3", 5, FilterKind::Value),
        ("host 10.0.0.1/8", 5, FilterKind::Value),
        ("host :", 5, FilterKind::Value),
        ("host :::", 5, FilterKind::Value),
        ("host :1", 5, FilterKind::Value),
        ("host 1:", 5, FilterKind::Value),
        ("host 1::2::3", 5, FilterKind::Value),
        ("host 1:::2", 5, FilterKind::Value),
        ("host 12345::", 5, FilterKind::Value),
        ("host ::g", 5, FilterKind::Value),
        ("host ::1.2.3.4", 5, FilterKind::Value),
        ("host 1:2:3:4:5:6:7", 5, FilterKind::Value),
        ("host 1:2:3:4:5:6:7:8:9", 5, FilterKind::Value),
        ("host 1:2:3:4::5:6:7:8", 5, FilterKind::Value),
        ("net 10.0.0.0", 4, FilterKind::Value),
        ("net 10.0.0.0/", 4, FilterKind::Value),
        ("net 10.0.0.0/33", 4, FilterKind::Value),
        ("net 10.0.0.0/08", 4, FilterKind::Value),
        ("net 10.0.0.0/00", 4, FilterKind::Value),
        ("net 10.0.0.0/8/8", 4, FilterKind::Value),
        ("net /8", 4, FilterKind::Value),
        ("net ::/129", 4, FilterKind::Value),
        ("tcp udp", 4, FilterKind::Unexpected),
        ("and", 0, FilterKind::Unexpected),
        ("or tcp", 0, FilterKind::Unexpected),
        (")", 0, FilterKind::Unexpected),
        ("()", 1, FilterKind::Unexpected),
        ("tcp )", 4, FilterKind::Unexpected),
        ("(tcp))", 5, FilterKind::Unexpected),
        ("tcp (", 4, FilterKind::Unexpected),
        ("tcp and or udp", 8, FilterKind::Unexpected),
        ("tcp not udp", 4, FilterKind::Unexpected),
        ("not and", 4, FilterKind::Unexpected),
        ("src tcp", 4, FilterKind::Unexpected),
        ("src dst", 4, FilterKind::Unexpected),
        ("src 80", 4, FilterKind::Unexpected),
        ("80", 0, FilterKind::Unexpected),
        ("10.0.0.1", 0, FilterKind::Unexpected),
        ("tcp ::1", 4, FilterKind::Unexpected),
        ("tcp and 10.0.0.0/8", 8, FilterKind::Unexpected),
        ("foo", 0, FilterKind::Token),
        ("TCP", 0, FilterKind::Token),
        ("tcp foo", 4, FilterKind::Token),
        ("src foo", 4, FilterKind::Token),
        ("tcp and é", 8, FilterKind::Token),
        ("65536", 0, FilterKind::Token),
        ("10.0.0.1/33", 0, FilterKind::Token),
        ("/", 0, FilterKind::Token),
        ("tcp\nand udp", 0, FilterKind::Token),
        ("tcp & udp", 4, FilterKind::Token),
        ("foo(", 0, FilterKind::Token),
        ("port x foo", 5, FilterKind::Value),
        ("tcp udp foo", 4, FilterKind::Unexpected),
    ];
    for (text, at, kind) in rows {
        assert_eq!(rt; fault_of(rt.alloc(), text), fault(at, kind));
    }
}

/// A front, and a text many times behind it.
fn repeated(alloc: Global, front: &str, text: &str, times: u32) -> Result<String, AllocError> {
    let mut all = String::from_str(alloc, front)?;
    for _ in 0..times {
        all.push_str(text)?;
    }
    Ok(all)
}

#[test]
fn limits_are_kept(rt: HostRuntime) -> Result<(), Fail> {
    let rows = [
        // 64 levels, and one more.
        ("", "not ", 64, "tcp", None),
        ("", "not ", 65, "tcp", fault(256, FilterKind::Deep)),
        ("", "(", 65, "tcp", fault(64, FilterKind::Deep)),
        ("", "not ", 64, "(tcp)", fault(256, FilterKind::Deep)),
        ("", "not ", 64, "and", fault(256, FilterKind::Unexpected)),
        // Levels that were closed count no more.
        ("not tcp", " and not (tcp)", 100, "", None),
        // 511 and 512 tokens, and one more.
        ("tcp", " and tcp", 255, "", None),
        ("tcp", " and tcp", 255, " and", fault(2047, FilterKind::End)),
        ("not tcp", " and tcp", 255, "", None),
        ("tcp", " and tcp", 256, "", fault(2048, FilterKind::Long)),
        // The 513th token, whatever it is.
        (
            "tcp",
            " and tcp",
            254,
            " and src port x",
            fault(2049, FilterKind::Long),
        ),
        (
            "not tcp",
            " and tcp",
            255,
            " foo",
            fault(2048, FilterKind::Long),
        ),
        // An earlier fault counts first.
        ("foo", " and tcp", 256, "", fault(0, FilterKind::Token)),
        // Long tokens: 512 of them, and one word.
        (
            "net 2001:0db8:0000:0000:0000:0000:0000:0001/128",
            " or net 2001:0db8:0000:0000:0000:0000:0000:0002/128",
            170,
            "",
            None,
        ),
        ("", "a", 5000, "", fault(0, FilterKind::Token)),
    ];
    for (front, text, times, back, expected) in rows {
        let mut all = repeated(rt.alloc(), front, text, times)?;
        all.push_str(back)?;
        assert_eq!(rt; fault_of(rt.alloc(), all.as_str()), expected);
    }
    Ok(())
}

fn end(addr: Addr, port: u16) -> End {
    End { addr, port }
}

#[test]
fn packets_match(rt: HostRuntime) -> Result<(), Fail> {
    let client = end(Addr::V4([10, 0, 0, 1]), 40_000);
    let server = end(Addr::V4([10, 0, 0, 2]), 80);
    let newer = end(
        Addr::V6([0xfe, 0x80, 0, 0, 0, 0, 0, 0, 0, 0, 0, 0, 0, 0, 0, 1]),
        53,
    );
    let rows = [
        ("tcp or udp and port 53", Proto::Tcp, client, server, false),
        ("tcp or (udp and port 53)", Proto::Tcp, client, server, true),
        ("udp", Proto::Tcp, client, server, false),
        ("not udp", Proto::Tcp, client, server, true),
        ("src port 80", Proto::Tcp, client, server, false),
        ("src port 80", Proto::Tcp, server, client, true),
        ("dst host 10.0.0.2", Proto::Tcp, client, server, true),
        ("dst host 10.0.0.2", Proto::Tcp, server, client, false),
        ("host 10.0.0.2", Proto::Udp, server, client, true),
        ("src net 10.0.0.0/31", Proto::Udp, server, client, false),
        ("net 10.0.0.0/31", Proto::Udp, server, client, true),
        ("src net 10.0.0.0/30", Proto::Udp, server, client, true),
        ("net 0.0.0.0/0", Proto::Udp, newer, newer, false),
        ("net fe80::/10", Proto::Udp, newer, newer, true),
        ("net fec0::/10", Proto::Udp, newer, newer, false),
        ("ip6 and host fe80::1", Proto::Udp, newer, newer, true),
        ("ip", Proto::Udp, newer, newer, false),
    ];
    for (text, proto, source, target, expected) in rows {
        let filter = Filter::parse(rt.alloc(), text)?;
        let (key, toward) = Key::of(proto, source, target);
        assert_eq!(rt; filter.matches(&key, toward), expected);
    }
    Ok(())
}

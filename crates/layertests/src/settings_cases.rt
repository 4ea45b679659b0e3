// Texts of settings and what they say, a table a topic.
use cutclass::Cut;
use overpolicy::{Mode, Policy, Shape};

/// A text of settings and what it says.
#[derive(Clone, Copy)]
pub(crate) struct Case {
    pub(crate) text: &'static str,
    pub(crate) shape: Shape,
    /// Limit, base, and how many priorities.
    pub(crate) marks: (u32, u32, u8),
    /// By default, of the way that opened the conversation, and of the other.
    pub(crate) cuts: (Cut, Cut, Cut),
    /// In the canonical form; empty where all packets are accepted.
    pub(crate) filter: &'static str,
    /// Priority, cutoff and filter of each class.
    pub(crate) classes: &'static str,
    /// Where each rule cuts; a point where it cuts nowhere.
    pub(crate) rules: &'static str,
}

/// The shape where nothing is said.
const USUAL: Shape = Shape {
    mode: Mode::Strict,
    policy: Policy::First,
    chunk: 16_384,
    overlap: 0,
    flush: 0,
    hole: 1_000_000_000,
    reorder: 262_144,
    idle: 300_000_000_000,
};

pub(crate) const NOTHING: Case = Case {
    text: "",
    shape: USUAL,
    marks: (67_108_864, 33_554_432, 1),
    cuts: (Cut::Unset, Cut::Unset, Cut::Unset),
    filter: "",
    classes: "",
    rules: "",
};

pub(crate) const MODES_AND_POLICIES: [Case; 17] = [
    Case {
        text: "",
        ..NOTHING
    },
    Case {
        text: "\n\n",
        ..NOTHING
    },
    Case {
        text: " \t \n\t",
        ..NOTHING
    },
    Case {
        text: "\r\n\r\n",
        ..NOTHING
    },
    Case {
        text: "#mode fast",
        ..NOTHING
    },
    Case {
        text: "# policy x\r\n#\n##",
        ..NOTHING
    },
    Case {
        text: "mode strict",
        ..NOTHING
    },
    Case {
        text: "mode strict\n",
        ..NOTHING
    },
    Case {
        text: "mode fast",
        shape: Shape {
            mode: Mode::Fast,
            ..USUAL
        },
        ..NOTHING
    },
    Case {
        text: "\n\n\tmode \t  fast \t\n\n",
        shape: Shape {
            mode: Mode::Fast,
            ..USUAL
        },
        ..NOTHING
    },
    Case {
        text: "mode fast\r\n",
        shape: Shape {
            mode: Mode::Fast,
            ..USUAL
        },
        ..NOTHING
    },
    Case {
        text: "policy first",
        ..NOTHING
    },
    Case {
        text: "policy last",
        shape: Shape {
            policy: Policy::Last,
            ..USUAL
        },
        ..NOTHING
    },
    Case {
        text: "policy bsd",
        shape: Shape {
            policy: Policy::Bsd,
            ..USUAL
        },
        ..NOTHING
    },
    Case {
        text: "policy linux",
        shape: Shape {
            policy: Policy::Linux,
            ..USUAL
        },
        ..NOTHING
    },
    Case {
        text: "policy bsd\nmode fast\n",
        shape: Shape {
            mode: Mode::Fast,
            policy: Policy::Bsd,
            ..USUAL
        },
        ..NOTHING
    },
    Case {
        text: "mode fast\r\n# and\r\npolicy last",
        shape: Shape {
            mode: Mode::Fast,
            policy: Policy::Last,
            ..USUAL
        },
        ..NOTHING
    },
];

// From the least to the greatest.
pub(crate) const SIZES_AND_TIMES: [Case; 19] = [
    Case {
        text: "chunk 1\n",
        shape: Shape { chunk: 1, ..USUAL },
        ..NOTHING
    },
    Case {
        text: "chunk 1048576\n",
        shape: Shape {
            chunk: 1_048_576,
            ..USUAL
        },
        ..NOTHING
    },
    Case {
        text: "chunk 0000000001\n",
        shape: Shape { chunk: 1, ..USUAL },
        ..NOTHING
    },
    Case {
        text: "chunk 0001048576\n",
        shape: Shape {
            chunk: 1_048_576,
            ..USUAL
        },
        ..NOTHING
    },
    Case {
        text: "overlap 0\n",
        shape: Shape {
            overlap: 0,
            ..USUAL
        },
        ..NOTHING
    },
    Case {
        text: "overlap 65536\n",
        shape: Shape {
            overlap: 65_536,
            ..USUAL
        },
        ..NOTHING
    },
    Case {
        text: "overlap 0000000000\n",
        shape: Shape {
            overlap: 0,
            ..USUAL
        },
        ..NOTHING
    },
    Case {
        text: "reorder 0\n",
        shape: Shape {
            reorder: 0,
            ..USUAL
        },
        ..NOTHING
    },
    Case {
        text: "reorder 00\n",
        shape: Shape {
            reorder: 0,
            ..USUAL
        },
        ..NOTHING
    },
    Case {
        text: "reorder 16777216\n",
        shape: Shape {
            reorder: 16_777_216,
            ..USUAL
        },
        ..NOTHING
    },
    Case {
        text: "flush 0\n",
        shape: Shape { flush: 0, ..USUAL },
        ..NOTHING
    },
    Case {
        text: "flush 1\n",
        shape: Shape {
            flush: 1_000_000,
            ..USUAL
        },
        ..NOTHING
    },
    Case {
        text: "flush 3600000\n",
        shape: Shape {
            flush: 3_600_000_000_000,
            ..USUAL
        },
        ..NOTHING
    },
    Case {
        text: "hole 1\n",
        shape: Shape {
            hole: 1_000_000,
            ..USUAL
        },
        ..NOTHING
    },
    Case {
        text: "hole 0001000\n",
        shape: Shape {
            hole: 1_000_000_000,
            ..USUAL
        },
        ..NOTHING
    },
    Case {
        text: "hole 3600000\n",
        shape: Shape {
            hole: 3_600_000_000_000,
            ..USUAL
        },
        ..NOTHING
    },
    Case {
        text: "idle 1\n",
        shape: Shape {
            idle: 1_000_000,
            ..USUAL
        },
        ..NOTHING
    },
    Case {
        text: "idle 86400000\n",
        shape: Shape {
            idle: 86_400_000_000_000,
            ..USUAL
        },
        ..NOTHING
    },
    Case {
        text: "idle 0086400000\n",
        shape: Shape {
            idle: 86_400_000_000_000,
            ..USUAL
        },
        ..NOTHING
    },
];

pub(crate) const CUTOFFS: [Case; 7] = [
    Case {
        text: "cutoff default 0",
        cuts: (Cut::At(0), Cut::Unset, Cut::Unset),
        ..NOTHING
    },
    Case {
        text: "cutoff fore none",
        cuts: (Cut::Unset, Cut::Endless, Cut::Unset),
        ..NOTHING
    },
    Case {
        text: "cutoff back 7",
        cuts: (Cut::Unset, Cut::Unset, Cut::At(7)),
        ..NOTHING
    },
    Case {
        text: "cutoff default 18446744073709551615",
        cuts: (Cut::At(18_446_744_073_709_551_615), Cut::Unset, Cut::Unset),
        ..NOTHING
    },
    Case {
        text: "cutoff fore 00000000000000000009",
        cuts: (Cut::Unset, Cut::At(9), Cut::Unset),
        ..NOTHING
    },
    Case {
        text: "cutoff back 00000000011",
        cuts: (Cut::Unset, Cut::Unset, Cut::At(11)),
        ..NOTHING
    },
    Case {
        text: "cutoff back 1\ncutoff default none\n\ncutoff fore 2",
        cuts: (Cut::Endless, Cut::At(2), Cut::At(1)),
        ..NOTHING
    },
];

pub(crate) const BUDGETS: [Case; 5] = [
    Case {
        text: "",
        marks: (67_108_864, 33_554_432, 1),
        ..NOTHING
    },
    Case {
        text: "budget 4096 0 1",
        marks: (4096, 0, 1),
        ..NOTHING
    },
    Case {
        text: "budget 4096 4096 16",
        marks: (4096, 4096, 16),
        ..NOTHING
    },
    Case {
        text: "budget 2147483647 2147483647 2",
        marks: (2_147_483_647, 2_147_483_647, 2),
        ..NOTHING
    },
    Case {
        text: "budget\t0000010000 0000004000 0000000003\t",
        marks: (10_000, 4000, 3),
        ..NOTHING
    },
];

// A filter is the rest of its line.
pub(crate) const FILTERS: [Case; 5] = [
    Case {
        text: "mode fast",
        shape: Shape {
            mode: Mode::Fast,
            ..USUAL
        },
        ..NOTHING
    },
    Case {
        text: "filter tcp",
        filter: "tcp",
        ..NOTHING
    },
    Case {
        text: "filter\tnot   ( udp )\t",
        filter: "not udp",
        ..NOTHING
    },
    Case {
        text: "filter tcp or\t\tudp and port 00053\r\n",
        filter: "((tcp or udp) and port 53)",
        ..NOTHING
    },
    Case {
        text: "filter not(tcp)and(host ::1)",
        filter: "(not tcp and host 0000:0000:0000:0000:0000:0000:0000:0001)",
        ..NOTHING
    },
];

pub(crate) const CLASSES: [Case; 7] = [
    Case {
        text: "mode fast",
        shape: Shape {
            mode: Mode::Fast,
            ..USUAL
        },
        ..NOTHING
    },
    Case {
        text: "class 0 - tcp",
        classes: "0 Unset tcp;",
        ..NOTHING
    },
    Case {
        text: "class 15 none udp",
        classes: "15 Endless udp;",
        ..NOTHING
    },
    Case {
        text: "class 0000000015 0 not  tcp",
        classes: "15 At(0) not tcp;",
        ..NOTHING
    },
    Case {
        text: "class 3 18446744073709551615 port 53",
        classes: "3 At(18446744073709551615) port 53;",
        ..NOTHING
    },
    Case {
        text: "class 3 00000000000000000005 tcp",
        classes: "3 At(5) tcp;",
        ..NOTHING
    },
    Case {
        text: "class 2 1 tcp\n\nclass 1 - udp\nclass 2 1 tcp",
        classes: "2 At(1) tcp;1 Unset udp;2 At(1) tcp;",
        ..NOTHING
    },
];

pub(crate) const RULES: [Case; 6] = [
    Case {
        text: "mode fast",
        shape: Shape {
            mode: Mode::Fast,
            ..USUAL
        },
        ..NOTHING
    },
    Case {
        text: "# rule",
        ..NOTHING
    },
    Case {
        text: "rule new any discard",
        rules: ".;",
        ..NOTHING
    },
    Case {
        text: "rule data any cutoff 7\n",
        rules: "7;",
        ..NOTHING
    },
    Case {
        text: "\trule  data\tbegins 4745  cutoff\t00000000000000000006 \r\n",
        rules: "6;",
        ..NOTHING
    },
    Case {
        text: "rule data from 4 cutoff 3\nmode fast\n# and\nrule new port 80 cutoff 1\nrule data any keep\n\
            rule data from 4 cutoff 3",
        shape: Shape {
            mode: Mode::Fast,
            ..USUAL
        },
        rules: "3;1;.;3;",
        ..NOTHING
    },
];

pub(crate) const ALL: [Case; 1] = [Case {
    text: "idle 1\nhole 2\nflush 3\nreorder 4\noverlap 5\nchunk 6\nmode fast\nbudget 4096 7 8\n\
            cutoff fore 9\nclass 10 11 ip\nfilter udp\nrule new any cutoff 12\npolicy linux\n",
    shape: Shape {
        mode: Mode::Fast,
        policy: Policy::Linux,
        chunk: 6,
        overlap: 5,
        flush: 3_000_000,
        hole: 2_000_000,
        reorder: 4,
        idle: 1_000_000,
    },
    marks: (4096, 7, 8),
    cuts: (Cut::Unset, Cut::At(9), Cut::Unset),
    classes: "10 At(11) ip;",
    filter: "udp",
    rules: "12;",
    ..NOTHING
}];

pub(crate) const KEPT: Case = Case {
    text: "filter udp and port 53\nrule data any keep\nchunk 9\ncutoff back 5\nclass 1 none tcp",
    shape: Shape { chunk: 9, ..USUAL },
    cuts: (Cut::Unset, Cut::Unset, Cut::At(5)),
    filter: "(udp and port 53)",
    classes: "1 Endless tcp;",
    rules: ".;",
    ..NOTHING
};

use crate::{Policy, Side, winner};

#[test]
fn starts_and_policies_decide(rt: HostRuntime) {
    // The later segment starts before the one whose byte is held, with it, and behind it.
    let rows = [
        (Policy::First, Side::Old, Side::Old, Side::Old),
        (Policy::Last, Side::New, Side::New, Side::New),
        (Policy::Bsd, Side::New, Side::Old, Side::Old),
        (Policy::Linux, Side::New, Side::New, Side::Old),
    ];
    for (policy, before, with, behind) in rows {
        assert_eq!(rt; winner(policy, 10, 9), before, "{policy:?}");
        assert_eq!(rt; winner(policy, 10, 10), with, "{policy:?}");
        assert_eq!(rt; winner(policy, 10, 11), behind, "{policy:?}");
        assert_eq!(rt; winner(policy, 0, -1), before, "{policy:?}");
        assert_eq!(rt; winner(policy, i64::MIN, i64::MAX), behind, "{policy:?}");
    }
}

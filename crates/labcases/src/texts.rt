/// What a drill of the capture of one record delivers.
pub const DELIVERY: &str = "new 1 udp 10.0.0.1 5000 10.0.0.2 53\n\
    data 1 > 0 0 0 0 6869\n\
    end 1 finish\n";

/// And its report.
pub const REPORT: &str = "scap report 1\n\
    cores 1 workers 1\n\
    core 0\n\
    seg 1 1 1000005000 +2@0:0\n\
    ans 1 1 .\n\
    end 1 1000005000 finish\n\
    ans 1 2 . ~2@1\n\
    ans 1 3 .\n\
    worker 0\n\
    from 0 3\n\
    dir 1 > 2 2 0 0 0 0 0 0\n\
    dir 1 < 0 0 0 0 0 0 0 0\n\
    records 1 accepted 1 filtered 0 other 0 fragment 0 short 0\n\
    bytes payload 2 delivered 2 duplicate 0 late 0 cut 0 shed 0\n\
    budget stamps 2 peak 2 refused 0\n\
    status 0\n";

/// The report of the same record with nanoseconds.
pub const REPORT_OF_NANOSECONDS: &str = "scap report 1\n\
    cores 1 workers 1\n\
    core 0\n\
    seg 1 1 1000000005 +2@0:0\n\
    ans 1 1 .\n\
    end 1 1000000005 finish\n\
    ans 1 2 . ~2@1\n\
    ans 1 3 .\n\
    worker 0\n\
    from 0 3\n\
    dir 1 > 2 2 0 0 0 0 0 0\n\
    dir 1 < 0 0 0 0 0 0 0 0\n\
    records 1 accepted 1 filtered 0 other 0 fragment 0 short 0\n\
    bytes payload 2 delivered 2 duplicate 0 late 0 cut 0 shed 0\n\
    budget stamps 2 peak 2 refused 0\n\
    status 0\n";

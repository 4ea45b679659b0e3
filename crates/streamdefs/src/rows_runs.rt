//! Runs whose journals are lawful, and what comes of them: each row is the contract of a function with an empty body.
ghost use Rattle.std.specs.Prelude.{◌≡◌, [], ◌∷◌, ◌++◌, codes, replicate};
ghost use Rattle.evring.specs.declared.reason.Reason.TheVariants.{Finish};
ghost use Rattle.evring.specs.declared.way.Way.TheVariants.{Fore};
ghost use Rattle.streamkey.specs.declared.toward.Toward.TheVariants.{Up};
ghost use Rattle.streamdefs.specs.Convo.{new_convo};
ghost use Rattle.streamdefs.specs.Convo.Seen.{Created, Data, Over};
ghost use Rattle.streamdefs.specs.Lawful.{Lawful};
ghost use Rattle.streamdefs.specs.Order.{OneHistory};
ghost use Rattle.streamdefs.specs.WorkerText.{worker_text};
ghost use Rattle.streamdefs.specs.Report.{report_text, total_lines, status_line};
ghost use Rattle.streamdefs.specs.Handler.{address_text};
ghost use Rattle.streamdefs.specs.Rows.{limited, seen_along};
ghost use Rattle.streamdefs.specs.RowsRuns.{one_journal, one_run, one_record, done, sized, four_acts, four_run, copy_run, uncopied_run, spare_run, keep_run, late_keep_run, unshown_run, flush_run, hole_run, idle_run, replaced_run, reset_run, closed_run, priorities_run, rule_run, two_run};
ghost use Rattle.streamkey.specs.declared.addr.Addr.TheVariants.{V6};

/// One datagram: its journal is lawful, and its two files are these.
pub fn one_datagram_is_delivered()
    ensures lawful { Lawful one_run }
    ensures history { OneHistory one_run }
    ensures delivery { worker_text one_run (0 ∷ 0 ∷ 0 ∷ []) ≡ codes "new 1 udp 10.0.0.1 5000 10.0.0.2 53\ndata 1 > 0 0 0 0 6869\nend 1 finish\n" }
    ensures report { report_text one_run one_journal one_record done
        ≡ codes "scap report 1\ncores 1 workers 1\ncore 0\nseg 1 1 1000000005 +2@0:0\nans 1 1 .\nend 1 1000000005 finish\nans 1 2 . ~2@1\nans 1 3 .\nworker 0\nfrom 0 3\ndir 1 > 2 2 0 0 0 0 0 0\ndir 1 < 0 0 0 0 0 0 0 0\nrecords 1 accepted 1 filtered 0 other 0 fragment 0 short 0\nbytes payload 2 delivered 2 duplicate 0 late 0 cut 0 shed 0\nbudget stamps 2 peak 2 refused 0\nstatus 0\n" }
{}

/// A budget of 4,096 bytes under four datagrams: the third is shed, and a gap.
pub fn a_full_budget_sheds()
    ensures lawful { Lawful four_run }
    ensures history { OneHistory four_run }
    ensures seen { seen_along (limited 4096) (sized 1 1400) four_acts
        ≡ Created (sized 1 1400).key Up ∷ Data (sized 1 1400).key Fore 0 0 0 [] (replicate 2800 120) ∷ Data (sized 1 1400).key Fore 4200 1400 0 [] (replicate 1200 120) ∷ Over Finish ∷ [] }
    ensures totals { total_lines four_run (record { accepted = 4; filtered = 0; other = 0; fragment = 0; short = 0 }) done
        ≡ codes "dir 1 > 5400 4000 0 0 0 1400 1 1400\ndir 1 < 0 0 0 0 0 0 0 0\nrecords 4 accepted 4 filtered 0 other 0 fragment 0 short 0\nbytes payload 5400 delivered 4000 duplicate 0 late 0 cut 0 shed 1400\nbudget stamps 6 peak 4000 refused 1\nstatus 0\n" }
{}

/// The last bytes of a chunk are shown again with the next; a refused copy isn't, and one that no byte follows is given back.
pub fn copies_are_shown_again()
    ensures lawful { Lawful copy_run × Lawful uncopied_run × Lawful spare_run }
    ensures history { OneHistory copy_run × OneHistory uncopied_run × OneHistory spare_run }
    ensures copied { worker_text copy_run (0 ∷ 0 ∷ 0 ∷ 0 ∷ [])
        ≡ codes "new 1 udp 10.0.0.1 5000 10.0.0.2 53\ndata 1 > 0 0 0 0 616263646566\ndata 1 > 6 0 2 0 6566676869\nend 1 finish\n" }
    ensures refused { worker_text uncopied_run (0 ∷ 0 ∷ 0 ∷ 0 ∷ [])
        ≡ codes "new 1 udp 10.0.0.1 5000 10.0.0.2 53\ndata 1 > 0 0 0 0 616263646566\ndata 1 > 6 0 0 0 676869\nend 1 finish\n" }
    ensures spare { worker_text spare_run (0 ∷ 0 ∷ 0 ∷ [])
        ≡ codes "new 1 udp 10.0.0.1 5000 10.0.0.2 53\ndata 1 > 0 0 0 0 616263646566\nend 1 finish\n" }
{}

/// A kept chunk rides with the next one; the core gives it back where the End came before the answer, or brings no chunk.
pub fn kept_chunks_ride_along()
    ensures lawful { Lawful keep_run × Lawful late_keep_run × Lawful unshown_run }
    ensures history { OneHistory keep_run × OneHistory late_keep_run × OneHistory unshown_run }
    ensures kept { worker_text keep_run (0 ∷ 0 ∷ 0 ∷ 0 ∷ [])
        ≡ codes "new 1 udp 10.0.0.1 5000 10.0.0.2 53\ndata 1 > 0 0 0 0 61626364\ndata 1 > 4 0 0 4 65666768\nend 1 finish\n" }
{}

/// An open chunk is flushed, a hole is jumped, and a quiet conversation ends, each at its moment.
pub fn dues_come_at_their_moments()
    ensures lawful { Lawful flush_run × Lawful hole_run × Lawful idle_run }
    ensures history { OneHistory flush_run × OneHistory hole_run × OneHistory idle_run }
    ensures flushed { worker_text flush_run (0 ∷ 0 ∷ 0 ∷ 0 ∷ [])
        ≡ codes "new 1 udp 10.0.0.1 5000 10.0.0.2 53\ndata 1 > 0 0 0 0 6162\ndata 1 > 2 0 0 0 6364\nend 1 finish\n" }
    ensures hole { total_lines hole_run (record { accepted = 3; filtered = 0; other = 0; fragment = 0; short = 0 }) done
        ≡ codes "dir 1 > 10 5 0 5 0 0 1 5\ndir 1 < 0 0 0 0 0 0 0 0\nrecords 3 accepted 3 filtered 0 other 0 fragment 0 short 0\nbytes payload 10 delivered 5 duplicate 0 late 5 cut 0 shed 0\nbudget stamps 2 peak 5 refused 0\nstatus 0\n" }
    ensures idle { worker_text idle_run (replicate 6 0)
        ≡ codes "new 1 udp 10.0.0.1 5000 10.0.0.2 53\ndata 1 > 0 0 0 0 41\nend 1 idle\nnew 2 udp 10.0.0.1 5000 10.0.0.2 53\ndata 2 > 0 0 0 0 42\nend 2 finish\n" }
{}

/// A conversation ends as replaced, as reset (what comes later is late), or as closed.
pub fn conversations_end_for_one_reason()
    ensures lawful { Lawful replaced_run × Lawful reset_run × Lawful closed_run }
    ensures history { OneHistory replaced_run × OneHistory reset_run × OneHistory closed_run }
    ensures replaced { worker_text replaced_run (0 ∷ 0 ∷ 0 ∷ 0 ∷ [])
        ≡ codes "new 1 tcp 10.0.0.1 40000 10.0.0.2 80\nend 1 replaced\nnew 2 tcp 10.0.0.1 40000 10.0.0.2 80\nend 2 finish\n" }
    ensures reset { worker_text reset_run (0 ∷ 0 ∷ 0 ∷ 0 ∷ 0 ∷ [])
        ≡ codes "new 1 tcp 10.0.0.1 40000 10.0.0.2 80\ndata 1 > 0 0 0 0 41414141414141414141\nend 1 reset\nnew 5 tcp 10.0.0.1 40000 10.0.0.2 80\nend 5 finish\n" }
    ensures late { total_lines reset_run (record { accepted = 5; filtered = 0; other = 0; fragment = 0; short = 0 }) done
        ≡ codes "dir 1 > 15 10 0 5 0 0 0 0\ndir 1 < 0 0 0 0 0 0 0 0\ndir 5 > 0 0 0 0 0 0 0 0\ndir 5 < 0 0 0 0 0 0 0 0\nrecords 5 accepted 5 filtered 0 other 0 fragment 0 short 0\nbytes payload 15 delivered 10 duplicate 0 late 5 cut 0 shed 0\nbudget stamps 2 peak 10 refused 0\nstatus 0\n" }
    ensures closed { worker_text closed_run (0 ∷ 0 ∷ 0 ∷ [])
        ≡ codes "new 1 tcp 10.0.0.1 40000 10.0.0.2 80\ndata 1 > 0 0 0 0 4142\nend 1 closed\n" }
{}

/// Where the mark of the lowest priority is reached, a conversation of a higher one still gets its bytes.
pub fn priorities_leave_room()
    ensures lawful { Lawful priorities_run }
    ensures history { OneHistory priorities_run }
    ensures totals { total_lines priorities_run (record { accepted = 8; filtered = 0; other = 0; fragment = 0; short = 0 }) done
        ≡ codes "dir 1 > 70 60 0 0 0 10 0 0\ndir 1 < 0 0 0 0 0 0 0 0\ndir 8 > 10 10 0 0 0 0 0 0\ndir 8 < 0 0 0 0 0 0 0 0\nrecords 8 accepted 8 filtered 0 other 0 fragment 0 short 0\nbytes payload 80 delivered 70 duplicate 0 late 0 cut 0 shed 10\nbudget stamps 14 peak 70 refused 1\nstatus 0\n" }
{}

/// Advice on the first chunk sets a cutoff, which the next segment meets.
pub fn advice_sets_a_cutoff()
    ensures lawful { Lawful rule_run }
    ensures history { OneHistory rule_run }
    ensures delivery { worker_text rule_run (0 ∷ 0 ∷ 0 ∷ 0 ∷ [])
        ≡ codes "new 1 tcp 10.0.0.1 40000 10.0.0.2 80\ndata 1 > 0 0 0 0 474554202f\ndata 1 > 5 0 0 0 61\nend 1 finish\n" }
    ensures totals { total_lines rule_run (record { accepted = 2; filtered = 0; other = 0; fragment = 0; short = 0 }) done
        ≡ codes "dir 1 > 9 6 0 0 3 0 0 0\ndir 1 < 0 0 0 0 0 0 0 0\nrecords 2 accepted 2 filtered 0 other 0 fragment 0 short 0\nbytes payload 9 delivered 6 duplicate 0 late 0 cut 3 shed 0\nbudget stamps 4 peak 5 refused 0\nstatus 0\n" }
{}

/// Two cores with a worker each reserve from one budget.
pub fn two_cores_share_one_budget()
    ensures lawful { Lawful two_run }
    ensures history { OneHistory two_run }
    ensures first { worker_text two_run (0 ∷ 0 ∷ 0 ∷ []) ≡ codes "new 1 udp 10.0.0.1 5000 10.0.0.2 53\ndata 1 > 0 0 0 0 6162\nend 1 finish\n" }
    ensures second { worker_text two_run (1 ∷ 1 ∷ 1 ∷ []) ≡ codes "new 2 udp 10.0.0.1 6000 10.0.0.2 53\ndata 2 > 0 0 0 0 636465\nend 2 finish\n" }
    ensures both { worker_text two_run (1 ∷ 0 ∷ 1 ∷ 0 ∷ 0 ∷ 1 ∷ [])
        ≡ codes "new 2 udp 10.0.0.1 6000 10.0.0.2 53\nnew 1 udp 10.0.0.1 5000 10.0.0.2 53\ndata 2 > 0 0 0 0 636465\ndata 1 > 0 0 0 0 6162\nend 1 finish\nend 2 finish\n" }
    ensures totals { total_lines two_run (record { accepted = 2; filtered = 0; other = 0; fragment = 0; short = 0 }) done
        ≡ codes "dir 1 > 2 2 0 0 0 0 0 0\ndir 1 < 0 0 0 0 0 0 0 0\ndir 2 > 3 3 0 0 0 0 0 0\ndir 2 < 0 0 0 0 0 0 0 0\nrecords 2 accepted 2 filtered 0 other 0 fragment 0 short 0\nbytes payload 5 delivered 5 duplicate 0 late 0 cut 0 shed 0\nbudget stamps 4 peak 5 refused 0\nstatus 0\n" }
{}

/// A faulty end of the capture is told on the last line; an address of version 6 is eight groups.
pub fn other_texts()
    ensures too_big { status_line (record { status = 7; more = 100 ∷ 262145 ∷ [] }) ≡ codes "status 7 100 262145\n" }
    ensures cut_short { status_line (record { status = 8; more = 26 ∷ [] }) ≡ codes "status 8 26\n" }
    ensures address { address_text (V6 (replicate 15 0 ++ 1 ∷ [])) ≡ codes "0000:0000:0000:0000:0000:0000:0000:0001" }
{}

// The sums over all directions.
ghost use Rattle.std.specs.Prelude.{◌≡◌, ◌+◌, ◌<◌, ◌^◌};
ghost use Rattle.streamdefs.specs.Lists.{total};
ghost use Rattle.tally.specs.Totals.{payload_of};

use convo::DirTotal;

/// The bytes of a run by their class, and all of them.
#[derive(Clone, Copy, Debug, PartialEq, Eq)]
pub(crate) struct Sums {
    pub(crate) payload: u64,
    pub(crate) taken: u64,
    pub(crate) duplicate: u64,
    pub(crate) late: u64,
    pub(crate) cut: u64,
    pub(crate) shed: u64,
}

/// The bytes that came in a direction.
pub(crate) fn payload_of(dir: &DirTotal) -> u64
    requires { payload_of dir.now < 2 ^ 64 }
    ensures { result ≡ payload_of dir.now }
{
    let counts = dir.counts;
    counts.duplicate + counts.late + counts.cut + counts.taken + counts.shed
}

/// Counts a direction.
fn count(sums: &mut Sums, dir: &DirTotal)
    requires payload { sums.old.payload + payload_of dir.now < 2 ^ 64 }
    requires taken { sums.old.taken + dir.now.counts.taken < 2 ^ 64 }
    requires duplicate { sums.old.duplicate + dir.now.counts.duplicate < 2 ^ 64 }
    requires late { sums.old.late + dir.now.counts.late < 2 ^ 64 }
    requires cut { sums.old.cut + dir.now.counts.cut < 2 ^ 64 }
    requires shed { sums.old.shed + dir.now.counts.shed < 2 ^ 64 }
    ensures payload { sums.new.payload ≡ sums.old.payload + payload_of dir.now }
    ensures taken { sums.new.taken ≡ sums.old.taken + dir.now.counts.taken }
    ensures duplicate { sums.new.duplicate ≡ sums.old.duplicate + dir.now.counts.duplicate }
    ensures late { sums.new.late ≡ sums.old.late + dir.now.counts.late }
    ensures cut { sums.new.cut ≡ sums.old.cut + dir.now.counts.cut }
    ensures shed { sums.new.shed ≡ sums.old.shed + dir.now.counts.shed }
{
    sums.payload += payload_of(dir);
    sums.taken += dir.counts.taken;
    sums.duplicate += dir.counts.duplicate;
    sums.late += dir.counts.late;
    sums.cut += dir.counts.cut;
    sums.shed += dir.counts.shed;
}

/// The sums over all directions.
pub(crate) fn sum_up(dirs: &[DirTotal]) -> Sums
    requires { total payload_of dirs.now < 2 ^ 64 }
    ensures payload { result.payload ≡ total payload_of dirs.now }
    ensures taken { result.taken ≡ total (λ d. d.counts.taken) dirs.now }
    ensures duplicate { result.duplicate ≡ total (λ d. d.counts.duplicate) dirs.now }
    ensures late { result.late ≡ total (λ d. d.counts.late) dirs.now }
    ensures cut { result.cut ≡ total (λ d. d.counts.cut) dirs.now }
    ensures shed { result.shed ≡ total (λ d. d.counts.shed) dirs.now }
{
    let mut sums = Sums {
        payload: 0,
        taken: 0,
        duplicate: 0,
        late: 0,
        cut: 0,
        shed: 0,
    };
    for dir in dirs {
        count(&mut sums, dir);
    }
    sums
}

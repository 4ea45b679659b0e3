// The totals of all cores in one list.
ghost use Rattle.std.specs.Prelude.{◌≡◌, All, IfOk};
ghost use Rattle.std.specs.List.Sorted.{IsPermutation};
ghost use Rattle.tally.specs.Dirs.{Ascend, joined, merged, place_of};

use crate::{DirTotals, Memory};
use convo::DirTotal;
use evring::Way;
use std::alloc::Global;

/// Where a direction stands among all.
fn place_of(dir: &DirTotal) -> u64
    ensures { result ≡ place_of dir.now }
{
    let way = match dir.way {
        Way::Fore => 0,
        Way::Back => 1,
    };
    2 * u64::from(dir.conv) + way
}

/// Two lists as one; each step takes one of them.
fn merged(alloc: Global, first: &[DirTotal], second: &[DirTotal]) -> Result<Vec<DirTotal>, Memory>
    ensures { IfOk result (λ all. all.items ≡ merged first.now second.now) }
{
    let mut all = Vec::with_capacity(alloc, first.len() + second.len())?;
    let mut i = 0;
    let mut j = 0;
    'merge: while i < first.len() && j < second.len() {
        if place_of(&second[j]) < place_of(&first[i]) {
            all.push(second[j])?;
            j += 1;
        } else {
            all.push(first[i])?;
            i += 1;
        }
    }
    all.extend_from_slice(&first[i..])?;
    all.extend_from_slice(&second[j..])?;
    Ok(all)
}

/// The totals of all cores in one list, by ascending number of their conversations, fore before back, as those of each core
/// stand. Each core costs time in proportion to the number of directions.
pub fn all_dirs(alloc: Global, cores: &[DirTotals]) -> Result<DirTotals, Memory>
    ensures ascend { IfOk result (λ dirs. All Ascend cores.now → Ascend dirs) }
    ensures same { IfOk result (IsPermutation (joined cores.now)) }
{
    let mut all = Vec::new(alloc);
    for dirs in cores {
        all = merged(alloc, &all, dirs.as_slice())?;
    }
    Ok(DirTotals::of(all))
}

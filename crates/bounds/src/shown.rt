// Plans that are shown for a place.
ghost use Rattle.std.specs.Prelude.{◌≡◌, ◌≤◌, length};
ghost use Rattle.windows.specs.Windows.{windows_in, Searchable};
ghost use Rattle.windows.specs.Mirrors.{mirror_bytes};
ghost use Rattle.bounds.specs.declared.types.Shown.TheVariants.{Early};
ghost use Rattle.bounds.specs.Calls.{StoresPlan};
ghost use Rattle.bounds.specs.Internal.{StoresShown};

use crate::ends::least_end;
use crate::types::Shown;
use jackson::unchecked_schedule;
use list::places_held;
use list::types::Refusal;
use windows::types::WindowSet;
use windows::{mirrored, room_fault};

// Stores Jackson's schedule with entry k's d set to its least end, and answers that end.
fn store_early(windows: WindowSet, k: usize, whole: bool, plan: &mut [u8]) -> u16
    requires searchable { Searchable windows k }
    requires h_in_bounds { windows.h ≤ length plan.old }
    ensures { StoresShown Early (λ _. whole) (windows_in windows) k plan.old result plan.new }
{
    let end = least_end(windows, k, whole);
    let mut shown = windows;
    shown.d[k] = end;
    let _filled = unchecked_schedule(shown, plan);
    end
}

// Mirrors a plan: "minute t becomes H-1-t".
fn mirror_plan(plan: &mut [u8])
    ensures { plan.new ≡ mirror_bytes (length plan.old) plan.old }
{
    plan.reverse();
}

// Stores the plan of entry k that is shown, and answers its bound. The late plan is the mirror of the early one in the mirror.
fn store_shown(shown: Shown, windows: WindowSet, k: usize, whole: bool, plan: &mut [u8]) -> u16
    requires searchable { Searchable windows k }
    requires h_in_bounds { windows.h ≤ length plan.old }
    ensures { StoresShown shown (λ _. whole) (windows_in windows) k plan.old result plan.new }
{
    match shown {
        Shown::Early => store_early(windows, k, whole, plan),
        Shown::Late => {
            let end = store_early(mirrored(windows), k, whole, plan);
            mirror_plan(&mut plan[..usize::from(windows.h)]);
            windows.h - end
        }
    }
}

// Stores the plan of place k that is shown, where `whole` says whether its entry is: rows 7, 13 and 11, then the plan, and answers its bound.
pub fn store_plan(
    shown: Shown,
    whole: bool,
    windows: WindowSet,
    k: usize,
    plan: &mut [u8],
) -> Result<u16, Refusal>
    ensures { StoresPlan shown whole (windows_in windows) k plan.old result plan.new }
{
    room_fault(windows)?;
    if places_held(windows.n) <= k {
        return Err(Refusal::UnknownPlace(k));
    }
    let h = usize::from(windows.h);
    if plan.len() < h {
        return Err(Refusal::PlanBufferShort(h));
    }
    Ok(store_shown(shown, windows, k, whole, plan))
}

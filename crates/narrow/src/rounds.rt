// Visits and rounds.
ghost use Rattle.std.specs.Prelude.{◌≡◌, ◌<◌};
ghost use Rattle.windows.specs.Windows.{windows_in, Formed};
ghost use Rattle.windows.specs.Plans.{Plannable};
ghost use Rattle.windows.specs.Intervals.{overload_of};
ghost use Rattle.narrow.specs.Rounds.{unmoved, earliest, latest, moved, narrow_side, visit, round, all_rounds};
ghost use Rattle.list.specs.DayLists.{marked};
ghost use Rattle.narrow.specs.Calls.{narrowed_by, narrowed_of, NarrowsWindows};
ghost use Rattle.narrow.specs.Internal.{Visitable, Countable};
ghost use Rattle.narrow.specs.FastRounds.{would_move, first_moved};

use crate::types::NarrowedWindows;
use edges::{closed_ends, least_start};
use list::places_held;
use list::types::{ENTRIES, Refusal};
use windows::types::WindowSet;
use windows::{mirrored, room_fault, unchecked_overload};

// "A changed r is one move, a changed d another."
fn moved_from(before: u16, after: u16) -> u32
    ensures { result ≡ moved before after }
{
    u32::from(before != after)
}

// Windows in which nothing was moved yet.
fn unmoved(windows: WindowSet) -> NarrowedWindows
    ensures { result ≡ record { windows = windows; moves = 0 } }
{
    NarrowedWindows { windows, moves: 0 }
}

// The search for entry k's r, with its move.
fn narrow_start(now: NarrowedWindows, k: usize) -> Result<NarrowedWindows, Refusal>
    requires visitable { Visitable now.windows k }
    requires moves_bound { now.moves < 4294967295 }
    ensures { narrowed_of result ≡ narrow_side overload_of earliest k (narrowed_by now) }
{
    let start = least_start(now.windows, k).ok_or(Refusal::NoPlace(k))?;
    let mut windows = now.windows;
    windows.r[k] = start;
    Ok(NarrowedWindows {
        windows,
        moves: now.moves + moved_from(now.windows.r[k], start),
    })
}

// The search for entry k's d, with its move: that for its r in the mirror. In a visit it finds one, since the r just found is a place.
fn narrow_end(now: NarrowedWindows, k: usize) -> Result<NarrowedWindows, Refusal>
    requires visitable { Visitable now.windows k }
    requires moves_bound { now.moves < 4294967295 }
    ensures { narrowed_of result ≡ narrow_side overload_of latest k (narrowed_by now) }
{
    let windows = mirrored(now.windows);
    let found = narrow_start(NarrowedWindows { windows, ..now }, k)?;
    let windows = mirrored(found.windows);
    Ok(NarrowedWindows { windows, ..found })
}

// Visits entry k: a pause entry is passed over; of a whole one the r is searched for, then the d. The bound leaves room for their moves.
fn visit(whole: bool, now: NarrowedWindows, k: usize) -> Result<NarrowedWindows, Refusal>
    requires visitable { Visitable now.windows k }
    requires moves_bound { now.moves < 4294967290 }
    ensures { narrowed_of result ≡ visit overload_of (λ _. whole) k (narrowed_by now) }
{
    if !whole {
        return Ok(now);
    }
    let started = narrow_start(now, k)?;
    narrow_end(started, k)
}

// Whether a visit would move an entry: it is whole, and its least end as a pause entry is not r + p, or in the mirror, where its r is
// `from` and its least end `late`, not from + p.
fn would_move(whole: bool, r: u16, from: u16, p: u16, end: u32, late: u32) -> bool
    ensures { result ≡ would_move whole r from p end late }
{
    let p = u32::from(p);
    whole && (end != u32::from(r) + p || late != u32::from(from) + p)
}

// The first place that a visit would move, or n if there is none.
// Not an Option: it begins the range of a round's visits, which is empty from n on.
fn first_moved(whole: [bool; ENTRIES], windows: WindowSet) -> usize
    ensures { result ≡ first_moved (marked whole) (windows_in windows) }
{
    let ends = closed_ends(windows);
    let mirror = mirrored(windows);
    let late = closed_ends(mirror);
    let count = places_held(windows.n);
    for k in 0..count {
        if would_move(
            whole[k],
            windows.r[k],
            mirror.r[k],
            windows.p[k],
            ends[k],
            late[k],
        ) {
            return k;
        }
    }
    count
}

// One round: visits the entries from place 0 up. Those before the first that would move are passed over.
fn one_round(whole: [bool; ENTRIES], given: NarrowedWindows) -> Result<NarrowedWindows, Refusal>
    requires { Countable (marked whole) given }
    ensures { narrowed_of result ≡ round overload_of (marked whole) (narrowed_by given) }
{
    let mut now = given;
    let count = places_held(given.windows.n);
    for k in first_moved(whole, given.windows)..count {
        now = visit(whole[k], now, k)?;
    }
    Ok(now)
}

// One round of windows that have no plan: no search finds a minute, so the first whole entry is refused.
fn unplanned_round(whole: [bool; ENTRIES], windows: WindowSet) -> Result<NarrowedWindows, Refusal>
    requires formed { Formed (windows_in windows) }
    requires fact { Plannable (windows_in windows) → ⊥ }
    ensures { narrowed_of result ≡ round overload_of (marked whole) (unmoved (windows_in windows)) }
{
    for k in 0..places_held(windows.n) {
        if whole[k] {
            return Err(Refusal::NoPlace(k));
        }
    }
    Ok(unmoved(windows))
}

// One round of windows with room, which tells no row 9: whether they have a plan decides how it is made, and not what it gives.
pub(crate) fn single_round(
    whole: [bool; ENTRIES],
    windows: WindowSet,
) -> Result<NarrowedWindows, Refusal>
    requires { Formed (windows_in windows) }
    ensures { narrowed_of result ≡ round overload_of (marked whole) (unmoved (windows_in windows)) }
{
    match unchecked_overload(windows) {
        Ok(()) => one_round(whole, unmoved(windows)),
        Err(_) => unplanned_round(whole, windows),
    }
}

// Rounds until one makes no move, or a refusal.
fn all_rounds(whole: [bool; ENTRIES], windows: WindowSet) -> Result<NarrowedWindows, Refusal>
    requires { Countable (marked whole) (record { windows = windows; moves = 0 }) }
    ensures { narrowed_of result ≡ all_rounds overload_of (marked whole) (windows_in windows) }
{
    let mut now = NarrowedWindows { windows, moves: 0 };
    // No count: the last round is the first without a move.
    loop {
        let next = one_round(whole, now)?;
        if next.moves == now.moves {
            break Ok(next);
        }
        now = next;
    }
}

// Narrows windows until they are settled, where `whole` marks the whole entries: rows 6 and 7, row 9 for the windows as given, then rounds
// and row 10.
// The marks are no part of the windows: each search makes other windows, under the same marks.
pub fn narrow_windows(
    whole: [bool; ENTRIES],
    windows: WindowSet,
) -> Result<NarrowedWindows, Refusal>
    ensures { NarrowsWindows (marked whole) windows result }
{
    room_fault(windows)?;
    unchecked_overload(windows)?;
    let found = all_rounds(whole, windows)?;
    let settled = WindowSet {
        n: windows.n,
        ..found.windows
    };
    Ok(NarrowedWindows {
        windows: settled,
        moves: found.moves,
    })
}

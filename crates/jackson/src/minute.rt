// Jackson's minute.
ghost use Rattle.std.specs.Prelude.{◌≡◌, ◌+◌, ◌<◌, ◌≤◌};
ghost use Rattle.base.specs.Counting.{lex_smaller};
ghost use Rattle.windows.specs.Windows.{windows_in};
ghost use Rattle.windows.specs.Plans.{idle};
ghost use Rattle.jackson.specs.Minutes.{state_in, is_ready, earliest_deadline, chosen};
ghost use Rattle.jackson.specs.Calls.{Advances};
ghost use Rattle.jackson.specs.Internal.{state_at, better_ready, IsAfterMinutes, IsAfter};
ghost use Rattle.list.specs.DayLists.{most_entries};

use crate::types::{Day, Minute};
use list::places_held;
use list::types::ENTRIES;
use windows::types::WindowSet;

// The entry at place i has its r reached and minutes left.
// It takes no Day, and those below neither: who had the minute before does not count.
fn is_ready(windows: &WindowSet, t: u16, i: usize) -> bool
    requires { i < most_entries }
    ensures { result ≡ is_ready (state_at windows.now t) i }
{
    windows.r[i] <= t && 0 < windows.p[i]
}

// Place i comes before place k: its d is smaller, or as small and it has fewer minutes left.
fn comes_before(windows: &WindowSet, i: usize, k: usize) -> bool
    requires i_lt_most_entries { i < most_entries }
    requires k_lt_most_entries { k < most_entries }
    ensures { let w = windows_in windows.now in result ≡ lex_smaller w.d w.p i k }
{
    (windows.d[i], windows.p[i]) < (windows.d[k], windows.p[k])
}

// The better of place i and the best so far k, 255 for none: i if it is ready and comes before k.
fn better_ready(windows: &WindowSet, t: u16, i: usize, k: u8) -> u8
    requires i_lt_most_entries { i < most_entries }
    requires k_lt_most_entries { (k ≡ idle → ⊥) → k < most_entries }
    ensures { result ≡ better_ready (state_at windows.now t) i k }
{
    if is_ready(windows, t, i) && (k == 255 || comes_before(windows, i, usize::from(k))) {
        // Below 64, so that it fits.
        i as u8
    } else {
        k
    }
}

// The ready place with the smallest d, of equals the one with the fewest minutes left, then the lowest; 255 for none.
fn earliest_deadline(windows: &WindowSet, t: u16) -> u8
    ensures { result ≡ earliest_deadline (state_at windows.now t) }
{
    let mut k = 255;
    for i in 0..places_held(windows.n) {
        k = better_ready(windows, t, i, k);
    }
    k
}

// The place that has the day's minute, 255 for none.
pub(crate) fn choice(day: &Day) -> u8
    ensures { result ≡ chosen (state_in day.now) }
{
    let windows = &day.windows;
    let k = earliest_deadline(windows, day.t);
    let running = usize::from(day.last);
    if running < places_held(windows.n)
        && is_ready(windows, day.t, running)
        && windows.d[running] <= windows.d[usize::from(k)]
    {
        day.last
    } else {
        k
    }
}

// The day after place k, or none, had so many minutes.
pub(crate) fn advanced_by(day: Day, k: u8, minutes: u16) -> Day
    requires { day.t + minutes ≤ 65535 }
    ensures { IsAfterMinutes day k minutes result }
{
    let mut windows = day.windows;
    let place = usize::from(k);
    if place < ENTRIES {
        windows.p[place] = windows.p[place].saturating_sub(minutes);
    }
    Day {
        windows,
        t: day.t + minutes,
        last: k,
    }
}

// The day after place k, or none, had its minute.
fn advanced(day: Day, k: u8) -> Day
    requires { day.t < 65535 }
    ensures { IsAfter day k result }
{
    advanced_by(day, k, 1)
}

impl Day {
    // Gives the minute to an entry or to none, with the day after it. A day past its end is idle and stays as it is.
    pub fn minute(self) -> Minute
        ensures { Advances self result }
    {
        if self.windows.h <= self.t {
            return Minute {
                place: 255,
                day: self,
            };
        }
        let place = choice(&self);
        Minute {
            place,
            day: advanced(self, place),
        }
    }
}

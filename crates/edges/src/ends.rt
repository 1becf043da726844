// Least ends in closed form: for each right end one walk over the left ends, from the smallest r up, for all entries at once.
ghost use Rattle.std.specs.Prelude.{◌≡◌, ◌*◌, ◌≤◌, max, length};
ghost use Rattle.list.specs.DayLists.{most_entries};
ghost use Rattle.order.specs.Orders.{value_at};
ghost use Rattle.windows.specs.Windows.{windows_in};
ghost use Rattle.edges.specs.Calls.{GivesEnds};
ghost use Rattle.edges.specs.Internal.{MinutesBy, DueBy, asked_after, EndsBy, Raises, FirstEnds, AtPlaces};

use list::places_held;
use list::types::ENTRIES;
use windows::ByRelease;
use windows::types::WindowSet;

// An entry's minutes, if its d is at most b.
fn minutes_by(b: u16, d: u16, p: u16) -> u32
    ensures { MinutesBy b d p result }
{
    if d <= b { u32::from(p) } else { 0 }
}

// The minutes of all entries whose d is at most b.
fn work_by(windows: &WindowSet, b: u16) -> u32
    ensures { DueBy (windows_in windows.now) (windows_in windows.now).n b result }
{
    let mut kept = 0;
    for i in 0..places_held(windows.n) {
        kept += minutes_by(b, windows.d[i], windows.p[i]);
    }
    kept
}

// An entry's end, raised to what the right end b asks of it.
fn later_asked(end: u32, latest: u32, b: u16, d: u16, p: u16) -> u32
    requires { latest ≤ 65535 * 65 }
    ensures { result ≡ max end (asked_after b latest d p) }
{
    let asked = latest + u32::from(p);
    if b < d && u32::from(b) < asked {
        end.max(asked)
    } else {
        end
    }
}

// Raises the ends, by position, to what the right end b asks.
fn raise_ends(by_release: &ByRelease, b: u16, ends: &mut [u32; ENTRIES])
    requires ends_len { length ends.old ≡ most_entries }
    ensures { Raises (windows_in by_release.now.windows) (value_at by_release.now.order) b ends.old ends.new }
{
    let ByRelease { windows, order } = by_release;
    let mut kept = work_by(windows, b);
    let mut latest = 0;
    for x in (0..places_held(windows.n)).rev() {
        let i = order[x];
        let (d, p) = (windows.d[i], windows.p[i]);
        latest = latest.max(u32::from(windows.r[i]) + kept);
        ends[x] = later_asked(ends[x], latest, b, d, p);
        kept -= minutes_by(b, d, p);
    }
}

// r + p, by position.
fn first_ends(by_release: &ByRelease) -> [u32; ENTRIES]
    ensures { FirstEnds (windows_in by_release.now.windows) (value_at by_release.now.order) (windows_in by_release.now.windows).n result }
{
    let ByRelease { windows, order } = by_release;
    let mut ends = [0; ENTRIES];
    for (x, &i) in order[..places_held(windows.n)].iter().enumerate() {
        ends[x] = u32::from(windows.r[i]) + u32::from(windows.p[i]);
    }
    ends
}

// The ends, by position, that all right ends ask.
fn ends_by_position(by_release: &ByRelease) -> [u32; ENTRIES]
    ensures { EndsBy (windows_in by_release.now.windows) (value_at by_release.now.order) (windows_in by_release.now.windows).n result }
{
    let windows = &by_release.windows;
    let mut ends = first_ends(by_release);
    for &b in &windows.d[..places_held(windows.n)] {
        raise_ends(by_release, b, &mut ends);
    }
    ends
}

// The ends, each at its entry's place.
fn at_places(by_release: &ByRelease, ends: &[u32; ENTRIES]) -> [u32; ENTRIES]
    ensures { AtPlaces (windows_in by_release.now.windows).n (value_at by_release.now.order) ends.now
        (windows_in by_release.now.windows).n result }
{
    let ByRelease { windows, order } = by_release;
    let mut places = [0; ENTRIES];
    for (x, &i) in order[..places_held(windows.n)].iter().enumerate() {
        places[i] = ends[x];
    }
    places
}

// The least ends of all entries as pause entries, in closed form. Places from n on are 0.
pub fn closed_ends(windows: WindowSet) -> [u32; ENTRIES]
    ensures { GivesEnds (windows_in windows) result }
{
    let by_release = ByRelease::of(windows);
    let ends = ends_by_position(&by_release);
    at_places(&by_release, &ends)
}

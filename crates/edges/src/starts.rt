// The search for an entry's least start by jumps.
ghost use Rattle.std.specs.Prelude.{◌≡◌, ◌+◌, ◌≤◌, ltb};
ghost use Rattle.order.specs.Orders.{value_at};
ghost use Rattle.windows.specs.Windows.{windows_in};
ghost use Rattle.edges.specs.Starts.{jumped, raised, considers, passed};
ghost use Rattle.edges.specs.Calls.{FindsStart};
ghost use Rattle.edges.specs.Internal.{Enters};

use list::places_held;
use windows::ByRelease;
use windows::types::WindowSet;

// A walk over the left ends of a right end so far: the work that entered, and the start.
#[derive(Clone, Copy)]
pub(crate) struct StartSoFar {
    pub work: u32,
    pub start: u32,
}

// The start after the left end a, from where on so much work has to be done by b.
fn jump(b: u16, p: u16, a: u16, work: u32, s: u32) -> u32
    requires { work ≤ 4194240 }
    ensures { result ≡ jumped b p a work s }
{
    let done = u32::from(a) + work;
    if done <= s || u32::from(a).min(s) + work + u32::from(p) <= u32::from(b) {
        return s;
    }
    done
}

// A box of the others enters, with its r and minutes.
fn enter(b: u16, p: u16, r: u16, minutes: u16, sum: StartSoFar) -> StartSoFar
    requires { sum.work ≤ 4128705 }
    ensures { Enters b p r minutes sum result }
{
    let work = sum.work + u32::from(minutes);
    StartSoFar {
        work,
        start: jump(b, p, r, work, sum.start),
    }
}

// One right end: left end after left end, from the largest r down, the start is raised by what the work there asks.
fn raise(by_release: &ByRelease, b: u16, p: u16, start: u32) -> u32
    ensures { result ≡ raised (windows_in by_release.now.windows) (value_at by_release.now.order) b p
        (windows_in by_release.now.windows).n start }
{
    let ByRelease { windows, order } = by_release;
    let mut sum = StartSoFar { work: 0, start };
    for &i in &order[..places_held(windows.n)] {
        if windows.d[i] <= b {
            sum = enter(b, p, windows.r[i], windows.p[i], sum);
        }
    }
    sum.start
}

// Whether a pass considers the right end b for an entry with this d: one that begins at its r only those before d.
fn is_considered(initial: bool, d: u16, b: u16) -> bool
    ensures { result ≡ considers initial d b }
{
    !initial || b < d
}

// One pass: all right ends that are above the start and considered, those of the smallest r first.
fn pass(by_release: &ByRelease, p: u16, initial: bool, last: u16, start: u32) -> u32
    ensures { result ≡ passed (windows_in by_release.now.windows) (value_at by_release.now.order) p initial last
        (windows_in by_release.now.windows).n start }
{
    let ByRelease { windows, order } = by_release;
    let mut s = start;
    for x in (0..places_held(windows.n)).rev() {
        let b = windows.d[order[x]];
        if s < u32::from(b) && is_considered(initial, last, b) {
            s = raise(by_release, b, p, s);
        }
    }
    s
}

// Whether p minutes from s on do not end by d. That d has 16 bits, an array does not tell the caller.
fn is_used_up(d: u16, s: u32, p: u16) -> bool
    ensures value { result ≡ ltb d (s + p) }
    ensures d_bound { d ≤ 65535 }
{
    u64::from(d) < u64::from(s) + u64::from(p)
}

// The least start of entry k, from its r up: "the search ends at the first start that has a plan". Starts that have none are jumped over.
pub fn least_start(windows: WindowSet, k: usize) -> Option<u16>
    ensures { FindsStart (windows_in windows) k result }
{
    if places_held(windows.n) <= k {
        return None;
    }
    let first = windows.r[k];
    let last = windows.d[k];
    let p = windows.p[k];
    // The others, without this entry's minutes. Work and intervals ask for no day's length.
    let mut others = WindowSet { h: 0, ..windows };
    others.p[k] = 0;
    let others = ByRelease::of(others);
    let mut s = u32::from(first);
    // Document 01's form: the least start, or none, by break.
    loop {
        if is_used_up(last, s, p) {
            break None;
        }
        let next = pass(&others, p, s == u32::from(first), last, s);
        if next == s {
            // At most d, so that it fits.
            break Some(s as u16);
        }
        s = next;
    }
}

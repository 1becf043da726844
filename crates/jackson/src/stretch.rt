// Jackson's minutes by stretches, from one arrival or finish to the next.
ghost use Rattle.std.specs.Prelude.{◌≡◌, ◌+◌, ◌<◌, ◌≤◌};
ghost use Rattle.windows.specs.Windows.{windows_in};
ghost use Rattle.jackson.specs.Stretches.{sooner, next_release, finish, stretch_end, Stretches};

use crate::minute::{advanced_by, choice};
use crate::types::{Day, Stretch};
use list::places_held;
use windows::types::WindowSet;

// The first of an r and an end; an r of at most t does not count.
fn sooner_release(t: u16, r: u16, end: u16) -> u16
    ensures { result ≡ sooner t r end }
{
    if t < r { r.min(end) } else { end }
}

// The first of the r after t and an end.
fn next_release(windows: &WindowSet, t: u16, end: u16) -> u16
    ensures { let w = windows_in windows.now in result ≡ next_release w.n w.r t end }
{
    let mut first = end;
    for r in &windows.r[..places_held(windows.n)] {
        first = sooner_release(t, *r, first);
    }
    first
}

// The first of the finish of place k, if it has all minutes from t on, and the day's end.
fn finish(windows: &WindowSet, t: u16, k: u8) -> u16
    ensures { result ≡ finish (windows_in windows.now) t k }
{
    let place = usize::from(k);
    if place < places_held(windows.n) {
        t.saturating_add(windows.p[place]).min(windows.h)
    } else {
        windows.h
    }
}

// The first of the next r after t, the finish of place k, and the day's end.
fn stretch_end(windows: &WindowSet, t: u16, k: u8) -> u16
    ensures { result ≡ stretch_end (windows_in windows.now) t k }
{
    next_release(windows, t, finish(windows, t, k))
}

impl Day {
    // Gives an entry or none its minutes up to the next arrival, its finish or the day's end, with the day after them. A day past its end
    // gives none and stays as it is.
    pub fn stretch(self) -> Stretch
        ensures { Stretches self result }
    {
        if self.windows.h <= self.t {
            return Stretch {
                place: 255,
                minutes: 0,
                day: self,
            };
        }
        let place = choice(&self);
        let minutes = stretch_end(&self.windows, self.t, place) - self.t;
        Stretch {
            place,
            minutes,
            day: advanced_by(self, place, minutes),
        }
    }
}

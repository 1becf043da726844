// Overloaded intervals.
ghost use Rattle.std.specs.Prelude.{◌≡◌, ◌&&◌, ◌+◌, ◌*◌, ◌-◌, ◌<◌, ◌≤◌, leb, ltb};
ghost use Rattle.list.specs.Refusals.{outcome_of};
ghost use Rattle.list.specs.DayLists.{most_entries};
ghost use Rattle.order.specs.Orders.{value_at};
ghost use Rattle.windows.specs.Windows.{windows_in};
ghost use Rattle.windows.specs.Intervals.{overload_of};
ghost use Rattle.windows.specs.Internal.{FindsLeft, FindsRight};

use crate::by_release::ByRelease;
use crate::running_sum::{RunningSum, start_anew};
use crate::types::WindowSet;
use list::places_held;
use list::types::Refusal;

// An interval [a, b) and its work.
#[derive(Clone, Copy)]
pub(crate) struct Interval {
    pub a: u16,
    pub b: u16,
    pub work: u32,
}

// The overloaded interval shown, if one is, and the sum as the last walk left it.
#[derive(Clone, Copy)]
pub(crate) struct ShownInterval {
    pub overloaded: Option<Interval>,
    pub sum: RunningSum,
}

// Whether [a, b) is an interval with more work than minutes.
fn is_overloaded(a: u16, b: u16, work: u32) -> bool
    ensures { result ≡ (ltb a b && ltb (b - a) work) }
{
    a < b && u32::from(b - a) < work
}

impl ByRelease {
    // The largest left end of an overloaded interval that ends at b: the first one met as the left end walks down.
    fn left_end(&self, b: u16, from: RunningSum) -> ShownInterval
        requires additions_bound { from.earlier + from.additions ≤ most_entries * most_entries }
        ensures { FindsLeft (windows_in self.now.windows) (value_at self.now.order) b from result }
    {
        let count = places_held(self.windows.n);
        let mut sum = start_anew(from);
        // No count: each walk passes all places of one r.
        while sum.passed < count {
            sum = self.walk_down(b, sum);
            if is_overloaded(sum.a, b, sum.kept) {
                let interval = Interval {
                    a: sum.a,
                    b,
                    work: sum.kept,
                };
                return ShownInterval {
                    overloaded: Some(interval),
                    sum,
                };
            }
        }
        ShownInterval {
            overloaded: None,
            sum,
        }
    }

    // What the right ends up to that of place i show, if those before it show `shown`. No walk is made if an overloaded interval is shown
    // whose b is no larger.
    fn smaller_right(&self, i: usize, shown: ShownInterval) -> ShownInterval
        requires i_lt_n { i < (windows_in self.now.windows).n }
        requires finds_right { FindsRight (windows_in self.now.windows) i shown }
        ensures { FindsRight (windows_in self.now.windows) (i + 1) result }
    {
        let b = self.windows.d[i];
        if shown.overloaded.is_some_and(|interval| interval.b <= b) {
            return shown;
        }
        let left = self.left_end(b, shown.sum);
        ShownInterval {
            overloaded: left.overloaded.or(shown.overloaded),
            sum: left.sum,
        }
    }

    // The overloaded interval with the smallest b, and with it the largest a, if one is overloaded.
    fn right_end(&self) -> ShownInterval
        ensures { FindsRight (windows_in self.now.windows) (windows_in self.now.windows).n result }
    {
        let mut shown = ShownInterval {
            overloaded: None,
            sum: RunningSum {
                a: 0,
                passed: 0,
                kept: 0,
                additions: 0,
                earlier: 0,
            },
        };
        for i in 0..places_held(self.windows.n) {
            shown = self.smaller_right(i, shown);
        }
        shown
    }
}

// Row 9 for windows, whatever they are: the overloaded interval with the smallest b, and with it the largest a, and its work.
pub fn unchecked_overload(windows: WindowSet) -> Result<(), Refusal>
    ensures { outcome_of result ≡ overload_of (windows_in windows) }
{
    let shown = ByRelease::of(windows).right_end();
    if let Some(Interval { a, b, work }) = shown.overloaded {
        return Err(Refusal::Overloaded(a, b, work));
    }
    Ok(())
}

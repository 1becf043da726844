// The running sum: for one right end b, the work of the intervals that end at b, while the left end walks down.
ghost use Rattle.std.specs.Prelude.{◌≡◌, ◌+◌, ◌*◌, ◌<◌, ◌≤◌};
ghost use Rattle.list.specs.DayLists.{most_entries};
ghost use Rattle.order.specs.Orders.{value_at};
ghost use Rattle.windows.specs.Windows.{windows_in};
ghost use Rattle.windows.specs.RunningSums.{WalksDown, anew};
ghost use Rattle.windows.specs.Internal.{Passes};

use crate::by_release::ByRelease;
use list::places_held;

// The left end reached, how many places of the order are passed, the sum kept, the additions made for this b, and those made for the right
// ends before it.
#[derive(Clone, Copy)]
pub(crate) struct RunningSum {
    pub a: u16,
    pub passed: usize,
    pub kept: u32,
    pub additions: usize,
    pub earlier: usize,
}

// Starts the sum anew for the next right end.
pub(crate) fn start_anew(sum: RunningSum) -> RunningSum
    requires { sum.earlier + sum.additions ≤ most_entries * most_entries }
    ensures { result ≡ anew sum }
{
    RunningSum {
        a: 0,
        passed: 0,
        kept: 0,
        additions: 0,
        earlier: sum.earlier + sum.additions,
    }
}

// Passes one place more: its box enters if its d is at most b.
fn pass_place(sum: RunningSum, b: u16, d: u16, p: u16) -> RunningSum
    requires passed_lt_most_entries { sum.passed < most_entries }
    requires kept_bound { sum.kept ≤ 65535 * sum.passed }
    requires additions_le_passed { sum.additions ≤ sum.passed }
    ensures { Passes b d p sum result }
{
    let passed = sum.passed + 1;
    if b < d {
        return RunningSum { passed, ..sum };
    }
    RunningSum {
        passed,
        kept: sum.kept + u32::from(p),
        additions: sum.additions + 1,
        ..sum
    }
}

impl ByRelease {
    // Walks on to the next left end: all places with that r are passed.
    pub(crate) fn walk_down(&self, b: u16, from: RunningSum) -> RunningSum
        requires passed_lt_n { from.passed < (windows_in self.now.windows).n }
        requires kept_bound { from.kept ≤ 65535 * from.passed }
        requires additions_le_passed { from.additions ≤ from.passed }
        ensures { WalksDown (windows_in self.now.windows) (value_at self.now.order) b from result }
    {
        let ByRelease { windows, order } = self;
        let a = windows.r[order[from.passed]];
        let mut sum = RunningSum { a, ..from };
        for &i in &order[from.passed..places_held(windows.n)] {
            if windows.r[i] < a {
                return sum;
            }
            sum = pass_place(sum, b, windows.d[i], windows.p[i]);
        }
        sum
    }
}

// The lines of a plan's runs.
ghost use Rattle.std.specs.Prelude.{◌≡◌, ◌<◌, length};
ghost use Rattle.windows.specs.Plans.{places_in};
ghost use Rattle.report.specs.Runs.{begins_run, run_end};
ghost use Rattle.report.specs.Internal.{Puts, run_text_at, runs_text};

use crate::text::Text;

// Whether an entry has minute t that did not have the minute before.
fn begins_run(plan: &[u8], t: usize) -> bool
    requires { t < length plan.now }
    ensures { result ≡ begins_run (places_in plan.now) t }
{
    let place = plan[t];
    // 255 is the plan's byte for an idle minute.
    let before = if t == 0 { 255 } else { plan[t - 1] };
    place != 255 && before != place
}

// The first minute from t on that the entry of minute t does not have, or the day's end.
fn run_end(plan: &[u8], t: usize) -> usize
    requires { t < length plan.now }
    ensures { result ≡ run_end (length plan.now) (places_in plan.now) t }
{
    let place = plan[t];
    for e in t..plan.len() {
        if plan[e] != place {
            return e;
        }
    }
    plan.len()
}

impl<const N: usize> Text<N> {
    // The line of the run that begins at minute t, if one does.
    fn put_run_at(&mut self, plan: &[u8], t: usize)
        requires { t < length plan.now }
        ensures { Puts N self.old (run_text_at plan.now t) self.new }
    {
        if begins_run(plan, t) {
            self.put_run(t, run_end(plan, t), plan[t]);
        }
    }

    // The lines of all runs of a plan.
    pub(crate) fn put_runs(&mut self, plan: &[u8])
        ensures { Puts N self.old (runs_text plan.now) self.new }
    {
        for t in 0..plan.len() {
            self.put_run_at(plan, t);
        }
    }
}

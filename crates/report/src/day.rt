// The text of a day: head, entries, runs; or the refusal of its list.
ghost use Rattle.std.specs.Prelude.{◌≤◌};
ghost use Rattle.list.specs.Checks.{WellFormed};
ghost use Rattle.report.specs.Reports.{planned_text, report_of};
ghost use Rattle.report.specs.Internal.{Puts, PutsOr, entries_text, answer_text};
ghost use Rattle.list.specs.DayLists.{most_entries};

use crate::text::Text;
use list::types::{DayList, ENTRIES, LONGEST_DAY, Refusal};
use planner::plan_day;
use planner::types::PlannedDay;

impl<const N: usize> Text<N> {
    // The entries' lines, with a least end and a greatest start for each place.
    fn put_entries(&mut self, list: DayList, ends: [u16; ENTRIES], starts: [u16; ENTRIES])
        requires { list.n ≤ most_entries }
        ensures { Puts N self.old (entries_text list ends starts) self.new }
    {
        for i in 0..usize::from(list.n) {
            self.put_entry_line(i, list.entries[i], ends[i], starts[i]);
        }
    }

    // The text of a planned day, whose plan's bytes are `plan`.
    fn put_day_text(&mut self, day: PlannedDay, plan: &[u8])
        requires { day.narrowed.list.n ≤ most_entries }
        ensures { Puts N self.old (answer_text day plan.now) self.new }
    {
        let list = day.narrowed.list;
        self.put_head(list.frame.h, list.n, day.narrowed.moves, day.broken);
        self.put_entries(list, day.ends, day.starts);
        self.put_runs(plan);
    }

    // The text of a list that was read, or row 9 or 10.
    fn put_planned(&mut self, list: DayList) -> Result<(), Refusal>
        requires { WellFormed list }
        ensures { PutsOr N (planned_text list) self.old result self.new }
    {
        // A constant, so no From.
        let mut plan = [0u8; LONGEST_DAY as usize];
        let day = plan_day(list, &mut plan)?;
        self.put_day_text(day, &plan[..usize::from(list.frame.h)]);
        Ok(())
    }

    // The text of an input's day, or the refusal of its list.
    pub(crate) fn put_report(&mut self, input: &[u8]) -> Result<(), Refusal>
        ensures { PutsOr N (report_of input.now) self.old result self.new }
    {
        self.put_planned(format::read(input)?)
    }
}

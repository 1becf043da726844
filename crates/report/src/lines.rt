// The report's lines.
ghost use Rattle.std.specs.Prelude.{◌++◌};
ghost use Rattle.report.specs.Text.{ascii};
ghost use Rattle.report.specs.Reports.{head_line, seal_text, kind_text, entry_line, run_line};
ghost use Rattle.report.specs.Calls.{line_of};
ghost use Rattle.report.specs.Internal.{Puts, times_text, carried_text};

use crate::text::Text;
use codes::RefusalCode;
use list::types::{Entry, Kind};

impl<const N: usize> Text<N> {
    // `day 12 entries 3 moves 1 broken 0`
    pub(crate) fn put_head(&mut self, h: u16, n: u8, moves: u32, broken: u8)
        ensures { Puts N self.old (head_line h n moves broken) self.new }
    {
        self.put_after(b"day ", u64::from(h));
        self.put_after(b" entries ", u64::from(n));
        self.put_after(b" moves ", u64::from(moves));
        self.put_after(b" broken ", u64::from(broken));
        self.put_bytes(b"\n");
    }

    // ` 77` or ` -`
    fn put_seal_text(&mut self, seal: Option<u32>)
        ensures { Puts N self.old (ascii " " ++ seal_text seal) self.new }
    {
        if let Some(x) = seal {
            self.put_after(b" ", u64::from(x));
        } else {
            self.put_bytes(b" -");
        }
    }

    // ` pause` or ` whole`
    fn put_kind_text(&mut self, kind: Kind)
        ensures { Puts N self.old (ascii " " ++ kind_text kind) self.new }
    {
        match kind {
            Kind::Pause => self.put_bytes(b" pause"),
            Kind::Whole => self.put_bytes(b" whole"),
        }
    }

    // The end of an entry's line: r, d and p, its least end and greatest start.
    fn put_times_text(&mut self, e: Entry, end: u16, start: u16)
        ensures { Puts N self.old (times_text e end start) self.new }
    {
        self.put_after(b" ", u64::from(e.r));
        self.put_after(b" ", u64::from(e.d));
        self.put_after(b" ", u64::from(e.p));
        self.put_after(b" ", u64::from(end));
        self.put_after(b" ", u64::from(start));
        self.put_bytes(b"\n");
    }

    // `1 502 77 whole 5 8 3 8 5`
    pub(crate) fn put_entry_line(&mut self, place: usize, e: Entry, end: u16, start: u16)
        ensures { Puts N self.old (entry_line place e end start) self.new }
    {
        self.put_decimal(place as u64);
        self.put_after(b" ", u64::from(e.serial));
        self.put_seal_text(e.seal);
        self.put_kind_text(e.kind);
        self.put_times_text(e, end, start);
    }

    // `5 8 1`
    pub(crate) fn put_run(&mut self, start: usize, end: usize, place: u8)
        ensures { Puts N self.old (run_line start end place) self.new }
    {
        self.put_decimal(start as u64);
        self.put_after(b" ", end as u64);
        self.put_after(b" ", u64::from(place));
        self.put_bytes(b"\n");
    }

    // What a refusal carries: ` from 2 to 5 work 4`, ` entry 0`, ` at 3`.
    fn put_carried(&mut self, number: u64, values: [u64; 3])
        ensures { Puts N self.old (carried_text number values) self.new }
    {
        if number == 9 {
            self.put_after(b" from ", values[0]);
            self.put_after(b" to ", values[1]);
            self.put_after(b" work ", values[2]);
        } else if number == 10 {
            self.put_after(b" entry ", values[0]);
        } else {
            self.put_after(b" at ", values[0]);
        }
    }

    // `refused 7 at 3`
    pub(crate) fn put_refusal(&mut self, code: RefusalCode)
        ensures { Puts N self.old (line_of code) self.new }
    {
        self.put_after(b"refused ", code.number);
        self.put_carried(code.number, code.values);
        self.put_bytes(b"\n");
    }
}

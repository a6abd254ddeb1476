// Making, writing and reading.
ghost use Rattle.std.specs.Prelude.{◌≡◌, ◌+◌, ◌*◌, ◌≤◌, List, length, fold, IsOk};
ghost use Rattle.survey.specs.Surveys.{start_setting};
ghost use Rattle.survey.specs.Answers.{net_of};
ghost use Rattle.trees.specs.Listings.{Exchanged};
ghost use Rattle.sheets.specs.Sheets.{left_on};
ghost use Rattle.lines.specs.Reports.{Report, first_report, lined, totalled, cleared, reported, most_spare, told_on, told_report};
ghost use Rattle.lines.specs.Meanings.{report_of, spare_of, Writes};

use super::Lines;
use crate::print::{MOST_LINE, MOST_TOTAL, write_line, write_total};
use crate::shown::Shown;
use faults::CollectorFault;
use sheets::Sheet;
use survey::Surveyed;

impl<'a> Lines<'a> {
    // At the start setting of a net, which is the first that is told; nothing is written. Once its line is, exchanges write a line
    // for each setting that they tell, numbered from 1 (the law); and from any report on, the lines that follow.
    #[tactic(auto, using(crate::proofs::Tellings::fold_reported, crate::proofs::Tellings::told_from))]
    pub fn new(site: &Surveyed, buffer: &'a mut [u8]) -> Lines<'a>
        ensures report { report_of result ≡ first_report (start_setting (net_of site.now)) (length buffer.old) }
        ensures spare { spare_of result ≡ most_spare (length buffer.old) 1 }
        ensures law { (xs : List Exchanged) → fold reported (lined (report_of result)) xs ≡ told_report (net_of site.now) (length buffer.old) xs }
        ensures onward { (p : Report) (xs : List Exchanged) → fold reported p xs ≡ told_on p xs }
    {
        let sheet = Sheet::new(buffer);
        let left = full_spare(sheet.room(), 1);
        Lines {
            sheet,
            shown: Shown::at_start(site),
            settings: 1,
            left,
        }
    }

    // Writes the line of the setting reached; refused where no spare is left.
    pub fn head(&mut self) -> Result<(), CollectorFault>
        ensures { Writes lined self.old result self.new }
    {
        self.left = self.left.checked_sub(1).ok_or(CollectorFault::Full)?;
        self.put_line()
    }

    // Writes the number of settings told; refused where no spare is left.
    pub fn total(&mut self) -> Result<(), CollectorFault>
        ensures { Writes totalled self.old result self.new }
    {
        self.left = self.left.checked_sub(1).ok_or(CollectorFault::Full)?;
        let mut line = [0; MOST_TOTAL];
        let start = write_total(self.settings, &mut line);
        self.sheet.put(&line[start..])
    }

    // The bytes written since the last clear.
    pub fn bytes(&self) -> &[u8]
        ensures { result.now ≡ (report_of self.now).text }
    {
        self.sheet.bytes()
    }

    // The number of settings told.
    pub fn settings(&self) -> u64
        ensures { result ≡ (report_of self.now).settings }
    {
        self.settings
    }

    // Nothing is written any more.
    pub fn clear(&mut self)
        ensures report { report_of self.new ≡ cleared (report_of self.old) }
        ensures spare { spare_of self.new ≡ most_spare (report_of self.old).room (report_of self.old).settings }
    {
        self.sheet.clear();
        self.left = full_spare(self.sheet.room(), self.settings);
    }

    // Writes the line of the setting reached, for which there is room.
    pub(crate) fn put_line(&mut self) -> Result<(), CollectorFault>
        requires { 201 * (spare_of self.old + 1) ≤ left_on self.old.sheet }
        ensures ok { IsOk result }
        ensures report { report_of self.new ≡ lined (report_of self.old) }
        ensures spare { spare_of self.new ≡ spare_of self.old }
    {
        let mut line = [0; MOST_LINE];
        let start = write_line(self.settings, &self.shown, &mut line);
        self.sheet.put(&line[start..])
    }
}

// How many exchanges are taken with nothing written.
fn full_spare(room: usize, settings: u64) -> u64
    ensures { result ≡ most_spare room settings }
{
    let lines = (room / MOST_LINE) as u64;
    lines.min(u64::MAX - settings)
}

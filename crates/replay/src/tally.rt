//! How many modules agree, and of what. Counts stay at the largest number once they are there, so that they are raised
//! by `saturating_add`.
ghost use Rattle.std.specs.Prelude.{◌≡◌};
ghost use Rattle.replay.specs.Scores.{counted, joined, missed, total, with_module, with_record, with_stop, with_refusal, all_missed};

use std::fmt;
use std::ops::AddAssign;

/// One part of the answers: how often it was compared, and how often it agreed.
#[derive(Clone, Copy, Debug, Default)]
pub struct Score {
    compared: usize,
    agreed: usize,
}

impl Score {
    /// Counts a comparison.
    pub fn count(&mut self, agrees: bool)
        ensures { self.new ≡ counted self.old agrees }
    {
        self.compared = self.compared.saturating_add(1);
        if agrees {
            self.agreed = self.agreed.saturating_add(1);
        }
    }

    // How often it did not agree.
    fn differences(self) -> usize
        ensures { result ≡ missed self }
    {
        self.compared.saturating_sub(self.agreed)
    }
}

impl AddAssign for Score {
    ghost add_assign_gives = { λ old more new. new ≡ joined old more };

    fn add_assign(&mut self, more: Score) {
        self.compared = self.compared.saturating_add(more.compared);
        self.agreed = self.agreed.saturating_add(more.agreed);
    }
}

impl fmt::Display for Score {
    fn fmt<W: fmt::Write>(&self, f: &mut fmt::Formatter<W>) -> fmt::Result {
        let Score { compared, agreed } = *self;
        write!(f, "{agreed} of {compared}")
    }
}

#[derive(Clone, Copy, Debug, Default)]
pub struct Tally {
    pub modules: usize,
    /// token lists from token files, and again from token tables
    pub lists: Score,
    pub tables: Score,
    /// records of the modules that are read to their end, and the lines of the pages that were filed into them
    pub records: Score,
    pub page_lines: usize,
    /// modules without a record: reading stopped, or stopped at a page that the record refuses
    pub stopped: usize,
    pub refused: usize,
    /// lines that were not replayed
    pub later: usize,
}

impl Tally {
    /// Counts a module and its lines that were not replayed.
    pub fn module(&mut self, later: usize)
        ensures { self.new ≡ with_module self.old later }
    {
        self.modules = self.modules.saturating_add(1);
        self.later = self.later.saturating_add(later);
    }

    /// Counts a record, and the lines of the pages that were filed into it.
    pub fn file(&mut self, page_lines: usize, agrees: bool)
        ensures { self.new ≡ with_record self.old page_lines agrees }
    {
        self.page_lines = self.page_lines.saturating_add(page_lines);
        self.records.count(agrees);
    }

    /// Counts a module whose reading stopped.
    pub fn stop(&mut self)
        ensures { self.new ≡ with_stop self.old }
    {
        self.stopped = self.stopped.saturating_add(1);
    }

    /// Counts a module with a page that the record refuses.
    pub fn refuse(&mut self)
        ensures { self.new ≡ with_refusal self.old }
    {
        self.refused = self.refused.saturating_add(1);
    }

    /// How many parts did not agree.
    pub fn differences(&self) -> usize
        ensures { result ≡ all_missed self.now }
    {
        self.lists
            .differences()
            .saturating_add(self.tables.differences())
            .saturating_add(self.records.differences())
    }
}

impl AddAssign for Tally {
    ghost add_assign_gives = { λ old more new. new ≡ total old more };

    fn add_assign(&mut self, more: Tally) {
        self.modules = self.modules.saturating_add(more.modules);
        self.lists += more.lists;
        self.tables += more.tables;
        self.records += more.records;
        self.page_lines = self.page_lines.saturating_add(more.page_lines);
        self.stopped = self.stopped.saturating_add(more.stopped);
        self.refused = self.refused.saturating_add(more.refused);
        self.later = self.later.saturating_add(more.later);
    }
}

impl fmt::Display for Tally {
    fn fmt<W: fmt::Write>(&self, f: &mut fmt::Formatter<W>) -> fmt::Result {
        let Tally {
            modules,
            lists,
            tables,
            records,
            page_lines,
            stopped,
            refused,
            later,
        } = *self;
        write!(
            f,
            "{modules} modules, {lists} token lists agree, {tables} token tables agree, "
        )?;
        write!(
            f,
            "{records} records agree ({page_lines} lines of pages read; no record: {stopped} stopped, {refused} at a refused page), "
        )?;
        write!(f, "{later} lines not replayed")
    }
}

//! The parts of a report.
ghost use Rattle.std.specs.Prelude.{◌≡◌};
ghost use Rattle.desk_report.specs.Report.{is_asked, name_of_part};
ghost use Rattle.desk_report.specs.ReportWritten.{label_of};

/// A part of a report.
#[derive(Clone, Copy)]
pub enum Part {
    /// What each account holds
    Accounts,
    /// What each participant has in cash
    Cash,
    /// The matched pairs that wait
    Pending,
    /// The totals of currencies and securities
    Sums,
    /// The instructions that are not matched
    Unmatched,
}

impl Part {
    /// Its name.
    pub fn name(self) -> &'static str
        ensures { result.now ≡ name_of_part self }
    {
        match self {
            Part::Accounts => "accounts",
            Part::Cash => "cash",
            Part::Pending => "pending",
            Part::Sums => "sums",
            Part::Unmatched => "unmatched",
        }
    }

    /// Its name as that of a JSON member: in quotes, and with a colon behind it.
    pub fn label(self) -> &'static [u8]
        ensures { result.now ≡ label_of self }
    {
        match self {
            Part::Accounts => b"\"accounts\":",
            Part::Cash => b"\"cash\":",
            Part::Pending => b"\"pending\":",
            Part::Sums => b"\"sums\":",
            Part::Unmatched => b"\"unmatched\":",
        }
    }
}

/// Which parts of a report are asked for.
#[derive(Clone, Copy)]
pub struct Parts {
    pub pending: bool,
    pub unmatched: bool,
    pub accounts: bool,
    pub cash: bool,
    pub sums: bool,
}

impl Parts {
    /// Whether a part is asked for.
    pub fn asks(self, part: Part) -> bool
        ensures { result ≡ is_asked self part }
    {
        match part {
            Part::Accounts => self.accounts,
            Part::Cash => self.cash,
            Part::Pending => self.pending,
            Part::Sums => self.sums,
            Part::Unmatched => self.unmatched,
        }
    }
}

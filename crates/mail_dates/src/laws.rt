//! Laws of the definitions of periods and ranges. The functions do nothing, because their contracts are the laws.

ghost use Rattle.std.specs.Prelude.{◌≡◌, ◌↔◌, ℕ, ℤ, List, Option, Some, Ok, Err};
ghost use Rattle.mail_dates.specs.declared.fault.DateFault.{DateFault};
ghost use Rattle.mail_dates.specs.declared.days.Days.{Days};
ghost use Rattle.mail_dates.specs.declared.days.DaysOfYear.{DaysOfYear};
ghost use Rattle.mail_dates.specs.declared.range.Range.{Range};
ghost use Rattle.mail_dates.specs.Calendar.{day_number, latest_year, IsLatestYear};
ghost use Rattle.mail_dates.specs.Periods.{fit_by};
ghost use Rattle.mail_dates.specs.PeriodGrammar.{Form, IsPeriod, NamesDays, IsRefusedPeriod};
ghost use Rattle.mail_dates.specs.Ranges.{named_days_by, range_at};
ghost use Rattle.mail_dates.specs.RangeGrammar.{IsRange, IsFault};

/// A period without a year is in the latest year that has its days and in which they begin by the day in question.
pub fn latest_year_is_latest()
    ensures { (which : DaysOfYear) (by year : ℤ) →
        (latest_year (fit_by day_number which by) ≡ Some year)
        ↔ IsLatestYear (fit_by day_number which by) year }
{}

/// A text has at most one of the forms of a period, and then the days of one period.
pub fn forms_of_periods_exclude_one_another()
    ensures { (today by : ℤ) (text : List ℕ) (f g : Form) (d e : Option Days)
        → IsPeriod today by text f d → IsPeriod today by text g e → (f ≡ g) × (d ≡ e) }
{}

/// The days that are read from a text are those that it names by the grammar.
pub fn a_period_is_read_as_the_grammar_says()
    ensures { (today by : ℤ) (text : List ℕ) (days : Days)
        → (named_days_by day_number today by text ≡ Ok days) ↔ NamesDays today by text days }
{}

/// A text is refused exactly if it names no days by the grammar, and with the fault that the grammar gives.
pub fn what_is_no_period_is_refused()
    ensures { (today by : ℤ) (text : List ℕ) (fault : DateFault)
        → (named_days_by day_number today by text ≡ Err fault)
        ↔ IsRefusedPeriod today by text fault }
{}

/// The range that is read from a text is the one that it means by the grammar.
pub fn a_range_is_read_as_the_grammar_says()
    ensures { (text : List ℕ) (now : ℕ) (range : Range)
        → (range_at text now ≡ Ok range) ↔ IsRange now text range }
{}

/// A text is refused exactly if it is no range by the grammar, and with the fault that the grammar gives.
pub fn what_is_no_range_is_refused()
    ensures { (text : List ℕ) (now : ℕ) (fault : DateFault)
        → (range_at text now ≡ Err fault) ↔ IsFault now text fault }
{}

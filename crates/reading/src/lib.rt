//! What reading a module means: a definition of reading, the grammar, and theorems between them. All of it stands in
//! the specifications; the functions here have the theorems as contracts, and compute nothing.
#![tactic(auto)]

ghost use Rattle.reading.specs.Laws.{LawsOfStops};
ghost use Rattle.reading.specs.Limits.{Limits};
ghost use Rattle.reading.specs.Main.{Exactly, ExactlyItems, OneReading, Splits, ElementsTakeOne};
ghost use Rattle.reading.specs.Runs.{ExactlyRuns};
ghost use Rattle.reading.specs.Worked.{Worked, Exported};

pub mod naming;

/// What is read without a stop and without a fault is what has a reading that fits the tables of the pages, and the
/// pages are those of its items.
#[tactic(auto, using(crate::proofs::Whole::exact))]
pub fn reading_is_exact()
    ensures { Exactly }
{}

/// The same of one item: a page without faults belongs to a clause of the grammar.
#[tactic(auto, using(crate::proofs::Whole::exact_items))]
pub fn items_are_exact()
    ensures { ExactlyItems }
{}

/// The same of a run of items, as far as it goes; and a run to the end is the reading of the whole list.
#[tactic(auto, using(crate::proofs::OfRuns::exact_runs))]
pub fn runs_are_exact()
    ensures { ExactlyRuns }
{}

/// Under one host no token list has two readings.
#[tactic(auto, using(crate::proofs::Whole::only))]
pub fn reading_is_unique()
    ensures { OneReading }
{}

/// The items of a reading, put together, are the whole token list.
#[tactic(auto, using(crate::proofs::Whole::splits))]
pub fn reading_splits()
    ensures { Splits }
{}

/// Worked modules, one or more for each number of a stop or a fault, computed by the definition of reading.
#[tactic(auto, using(crate::proofs::OfWorked::worked, crate::proofs::OfWorked::exported_names))]
pub fn worked_modules()
    ensures modules { Worked }
    ensures names { Exported }
{}

/// What an item takes stands at the front; every stop has its reason at the token come to; and where no host is asked,
/// a stop is the same for every list that agrees so far.
#[tactic(auto, using(crate::proofs::OfLaws::lawful))]
pub fn stops_are_lawful()
    ensures { LawsOfStops }
{}

/// An element of a brace list takes at least one token.
#[tactic(auto, using(crate::proofs::Takes::elements_take_one))]
pub fn elements_take_one()
    ensures { ElementsTakeOne }
{}

/// The limits of a page's tables: what just fits, and what is one too many.
#[tactic(auto, using(crate::proofs::OfWorked::limits))]
pub fn limits_hold()
    ensures { Limits }
{}

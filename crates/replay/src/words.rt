//! What the vectors call things.
ghost use Rattle.std.specs.Prelude.{◌≡◌, ◌≢◌, ◌<◌, ◌≤◌, ℕ, List, MatchOption};
ghost use Rattle.std.specs.List.{All};
ghost use Rattle.pages.specs.declared.fault.FaultKind.{FaultKind};
ghost use Rattle.pages.specs.declared.fault.Layer.{Layer};
ghost use Rattle.pages.specs.Faults.{number_of, layer_number};
ghost use Rattle.replay.specs.Rules.{word_of, rules};
ghost use Rattle.replay.specs.Words.{page_word, page_kinds, phase_word, phases, clause_word, clauses};

use lexer::entry::Broken;
use pages::fault::{FaultKind, Layer};
use pages::page::{PageKind, Phase};
use record_rules::rows::Clause;

/// A thing that the vectors have a word for.
pub trait Word: Copy + 'static {
    ghost written: { Self → List ℕ };

    // The things that a vector may name.
    ghost things: { List Self };

    /// All of them, listed by each impl: no derive of this crate can list the cases of an enum of another one.
    fn all() -> &'static [Self]
        ensures { result.now ≡ things };

    fn word(self) -> &'static str
        ensures { result.now ≡ written self };

    /// The thing that the vectors name so.
    final fn named(word: &str) -> Option<Self>
        ensures { MatchOption result (All (λ thing. written thing ≢ word.now) things) (λ thing. written thing ≡ word.now) }
    {
        Self::all()
            .iter()
            .copied()
            .find(|thing| thing.word() == word)
    }
}

// No vector has a blank page: its word is empty, and it is none of the things.
impl Word for PageKind {
    ghost written = { page_word };

    ghost things = { page_kinds };

    fn all() -> &'static [PageKind] {
        &[
            PageKind::Statement,
            PageKind::Import,
            PageKind::ExportAll,
            PageKind::ExportFrom,
            PageKind::Braces,
            PageKind::Declaration,
            PageKind::Default,
        ]
    }

    fn word(self) -> &'static str {
        match self {
            PageKind::Blank => "",
            PageKind::Statement => "statement",
            PageKind::Import => "import",
            PageKind::ExportAll => "export-all",
            PageKind::ExportFrom => "export-from",
            PageKind::Braces => "export-braces",
            PageKind::Declaration => "declaration",
            PageKind::Default => "default",
        }
    }
}

impl Word for Phase {
    ghost written = { phase_word };

    ghost things = { phases };

    fn all() -> &'static [Phase] {
        &[Phase::Evaluation, Phase::Defer, Phase::Source]
    }

    fn word(self) -> &'static str {
        match self {
            Phase::Evaluation => "none",
            Phase::Defer => "defer",
            Phase::Source => "source",
        }
    }
}

impl Word for Clause {
    ghost written = { clause_word };

    ghost things = { clauses };

    fn all() -> &'static [Clause] {
        &[Clause::Import, Clause::Export]
    }

    fn word(self) -> &'static str {
        match self {
            Clause::Import => "import",
            Clause::Export => "export",
        }
    }
}

impl Word for Broken {
    ghost written = { word_of };

    ghost things = { rules };

    fn all() -> &'static [Broken] {
        &[
            Broken::CutShort,
            Broken::NoKind,
            Broken::OtherMark,
            Broken::BadEnd,
            Broken::OutsideText,
        ]
    }

    fn word(self) -> &'static str {
        match self {
            Broken::CutShort => "cut",
            Broken::NoKind => "kind",
            Broken::OtherMark => "mark",
            Broken::BadEnd => "end",
            Broken::OutsideText => "part",
        }
    }
}

/// The fault of a page that has the number. A vector writes numbers of up to 32 bits, of which most are no fault's.
pub fn page_fault(number: u32) -> Option<FaultKind>
    ensures { MatchOption result ((k : FaultKind) → 20 ≤ number_of k → number_of k < 30 → number_of k ≢ number) (λ k. number_of k ≡ number) }
{
    match u8::try_from(number).ok()? {
        of_page @ 20..=29 => FaultKind::try_from(of_page).ok(),
        _ => None,
    }
}

/// The layer that has the number, which a vector writes as that of a fault.
pub fn layer_of(number: u32) -> Option<Layer>
    ensures { MatchOption result ((l : Layer) → layer_number l ≢ number) (λ l. layer_number l ≡ number) }
{
    Layer::try_from(u8::try_from(number).ok()?).ok()
}

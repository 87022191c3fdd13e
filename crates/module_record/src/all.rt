//! A whole module: its pages are filed one after another into a new record, which is then closed.
ghost use Rattle.std.specs.Prelude.{◌≡◌, ℕ, List};
ghost use Rattle.record_rules.specs.Filing.{blank_book};
ghost use Rattle.record_rules.specs.Closing.{closing};
ghost use Rattle.record_rules.specs.Runs.{run, ExportsPlaced, OrdersAgree};
ghost use Rattle.record_rules.specs.Ecma.{ByTheStandard};
ghost use Rattle.module_record.specs.Lists.{closed};
ghost use Rattle.module_record.specs.Refused.{refusals_from, told};

use crate::closed::ClosedRecord;
use crate::record::ModuleRecord;
use pages::fault::Fault;
use pages::page::Page;

/// A page that the record did not take.
#[derive(Clone, Copy, Debug, PartialEq, Eq)]
pub struct Refusal {
    /// its place among the pages
    pub page: usize,
    pub fault: Fault,
}

/// How many pages the record did not take, and the first of them. No list of them, since the slice of the pages has no
/// bound and there is no heap.
#[derive(Clone, Copy, Debug, Default, PartialEq, Eq)]
pub struct Refusals {
    pub count: usize,
    pub first: Option<Refusal>,
}

/// What the pages of a module come to.
#[derive(Drop)]
pub struct Filed {
    pub record: ClosedRecord,
    pub refusals: Refusals,
}

// Files the pages in turn. It counts in a loop and not by a chain, whose closure would change the record: of such a
// chain the check knows no result.
fn file_each(into: &mut ModuleRecord, text: &[u8], pages: &[Page]) -> Refusals
    ensures after { into.new ≡ run text.now pages.now into.old }
    ensures refused { result ≡ told (refusals_from text.now pages.now 0 into.old) }
{
    let mut refusals = Refusals::default();
    for (i, page) in pages.iter().enumerate() {
        if let Err(fault) = into.file(text, page) {
            refusals.count += 1;
            refusals.first = refusals.first.or(Some(Refusal { page: i, fault }));
        }
    }
    refusals
}

/// Opens a record, files every page and closes it. The text and the pages are two values of the caller's, as in `file`.
pub fn file_all(text: &[u8], pages: &[Page]) -> Filed
    ensures rows { closed result.«record» ≡ closing text.now (run text.now pages.now blank_book) }
    ensures refused { result.refusals ≡ told (refusals_from text.now pages.now 0 blank_book) }
    ensures placed { ExportsPlaced text.now pages.now (closed result.«record») }
    ensures orders { OrdersAgree text.now pages.now (closed result.«record») }
    ensures standard { ByTheStandard text.now pages.now (closed result.«record») }
{
    let mut builder = ModuleRecord::open();
    let refusals = file_each(&mut builder, text, pages);
    Filed {
        record: builder.close(text),
        refusals,
    }
}

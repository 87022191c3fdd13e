//! Closing the record.
ghost use Rattle.std.specs.Prelude.{◌≡◌, ℕ, ◌<◌, List, [], ◌∷◌, ◌++◌, length};
ghost use Rattle.pages.specs.declared.page.Page.{Page as AnyPage};
ghost use Rattle.record_rules.specs.Filing.{blank_book};
ghost use Rattle.record_rules.specs.Closing.{closing};
ghost use Rattle.record_rules.specs.Runs.{run, ExportsPlaced, OrdersAgree};
ghost use Rattle.record_rules.specs.Ecma.{ByTheStandard};
ghost use Rattle.module_record.specs.Lists.{closed};

use super::ModuleRecord;
use crate::closed::{ClosedRecord, ExportLists};
use crate::faults::find_faults;
use crate::room::put;
use crate::settling::Imports;
use record_rules::rows::Settled;

impl ModuleRecord {
    /// Sorts the exports, now that all imports are known, and notes what is wrong with the whole. Whatever pages led
    /// to the record: each export that was taken has its one row, the order of the pages does not matter, and the
    /// rows are the entries of ECMA-262. The three laws stand here each by its name, as on every call that carries them.
    pub fn close(self, text: &[u8]) -> ClosedRecord
        ensures rows { closed result ≡ closing text.now self }
        ensures placed { (ps : List AnyPage) → self ≡ run text.now ps blank_book → ExportsPlaced text.now ps (closed result) }
        ensures orders { (ps : List AnyPage) → self ≡ run text.now ps blank_book → OrdersAgree text.now ps (closed result) }
        ensures standard { (ps : List AnyPage) → self ≡ run text.now ps blank_book → ByTheStandard text.now ps (closed result) }
    {
        let mut exports = ExportLists::empty();
        let imports = Imports {
            text,
            rows: self.imports.as_slice(),
        };
        for row in self.waiting.as_slice() {
            match imports.settle(*row) {
                Settled::Local(row) => put(&mut exports.local, row),
                Settled::Indirect(row) => put(&mut exports.indirect, row),
                Settled::Star(row) => put(&mut exports.star, row),
            }
        }
        let faults = find_faults(text, &self.names, &exports, &self.skipped);
        ClosedRecord {
            imports: self.imports,
            requests: self.requests,
            exports,
            faults,
            module_syntax: self.module_syntax,
        }
    }
}

//! How much a record holds: rows for each of its tables, up to the last that it takes and one more.
ghost use Rattle.std.specs.Iterator.{IsFinite};

use crate::build::{braces, default, export_from, import, module, name, plain, span};
use anyhow::Result;
use module_record::record::ModuleRecord;
use pages::page::{DefaultName, Page, Phase};
use pages::rows::Request;
use pages::table::Full;

pub fn show_limits(rt: &HostRuntime) -> Result<()> {
    println!(rt;
        "How much a record holds, in rows of imports, requests, waiting exports and names"
    )?;
    let at = span(0, 0);
    let lone = Request {
        lone: true,
        ..module(0, 0)
    };
    let all = [plain(name(0, 1)); 129];
    for rows in [&all[..127], &all[..128], &all[..]] {
        let count = rows.len();
        // Imports and names stand as many to a page as it takes, a request and a default are a page each, and of
        // three exports to a page those count that fill one.
        let imports = rows
            .chunks(128)
            .map(|rows| import(at, Phase::Evaluation, module(0, 0), rows));
        let requests = rows
            .iter()
            .map(|_| import(at, Phase::Evaluation, module(0, 0), &[]));
        let defaults = rows
            .iter()
            .map(|_| Ok(default(at, at, at, DefaultName::Absent)));
        let names = rows.chunks(128).map(|rows| export_from(at, lone, rows));
        let exports = rows.chunks_exact(3).map(|rows| braces(at, rows));
        show_limit(rt, count, "imports", imports)?;
        show_limit(rt, count, "requests", requests)?;
        show_limit(rt, count, "defaults", defaults)?;
        show_limit(rt, count, "names of a source with a lone surrogate", names)?;
        show_limit(rt, count, "exports, three to a page", exports)?;
    }
    Ok(())
}

// Files the pages that so many rows make, and says what the tables hold then and how many pages were refused. They are
// filed here one after another, since it is the open record that is asked.
fn show_limit<I: Iterator<Item = Result<Page, Full>> + Drop>(
    rt: &HostRuntime,
    count: usize,
    what: &str,
    pages: I,
) -> Result<()>
    requires can { I.can_next pages }
    requires ends { IsFinite (I.remaining pages) }
{
    let mut record = ModuleRecord::open();
    let mut refused = 0usize;
    for page in pages {
        if record.file(b"ab", &page?).is_err() {
            refused = refused.saturating_add(1);
        }
    }
    let imports = record.imports().len();
    let requests = record.requests().len();
    let waiting = record.waiting().len();
    let names = record.names().len();
    println!(rt;
        "  {count} {what}: {imports}, {requests}, {waiting} and {names}, with {refused} pages refused"
    )?;
    Ok(())
}

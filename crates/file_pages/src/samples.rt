//! The sample modules.
use crate::build::{
    bound, braces, declaration, default, export_all, export_from, import, module, name, plain,
    renamed, span,
};
use crate::show::show;
use anyhow::Result;
use pages::page::{DefaultName, Page, Phase};
use pages::rows::{Binding, Request};

/// Each sample is made when those before it are shown, in an array of its pages: what is shown here wants no heap, and
/// the stack has one sample at a time.
pub fn show_samples(rt: &HostRuntime) -> Result<()> {
    handed_on(rt)?;
    every_list(rt)?;
    kept_local(rt)?;
    repeated(rt)?;
    several_defaults(rt)?;
    damaged(rt)?;
    refused(rt)
}

// An import that is exported again is handed on.
fn handed_on(rt: &HostRuntime) -> Result<()> {
    let text = "import delta from \"smile\"; export { delta };";
    let pages = [
        import(
            span(0, 26),
            Phase::Evaluation,
            module(18, 25),
            &[bound(Binding::Default, name(7, 12))],
        )?,
        braces(span(27, 44), &[plain(name(36, 41))])?,
    ];
    Ok(show(rt, text, &pages)?)
}

fn every_list(rt: &HostRuntime) -> Result<()> {
    let text =
        "export { x as y }; export * from \"m\"; export * as n from \"m\"; export { a } from \"k\"; export const c = 1;";
    let pages = [
        braces(span(0, 18), &[renamed(name(9, 10), name(14, 15))])?,
        export_all(span(19, 37), module(33, 36), None),
        export_all(span(38, 61), module(57, 60), Some(name(50, 51))),
        export_from(span(62, 84), module(80, 83), &[plain(name(71, 72))])?,
        declaration(span(85, 104), span(92, 104), &[name(98, 99)])?,
    ];
    Ok(show(rt, text, &pages)?)
}

// A namespace, a module's source and a default of an imported value stay local.
fn kept_local(rt: &HostRuntime) -> Result<()> {
    let text =
        "import * as n from \"m\"; import source s from \"w\"; import d from \"m\"; export { n, s }; export default d;";
    let pages = [
        import(
            span(0, 23),
            Phase::Evaluation,
            module(19, 22),
            &[bound(Binding::Namespace, name(12, 13))],
        )?,
        import(
            span(24, 49),
            Phase::Source,
            module(45, 48),
            &[bound(Binding::Default, name(38, 39))],
        )?,
        import(
            span(50, 68),
            Phase::Evaluation,
            module(64, 67),
            &[bound(Binding::Default, name(57, 58))],
        )?,
        braces(span(69, 85), &[plain(name(78, 79)), plain(name(81, 82))])?,
        default(
            span(86, 103),
            span(93, 100),
            span(101, 102),
            DefaultName::Plain(name(101, 102)),
        ),
    ];
    Ok(show(rt, text, &pages)?)
}

// A name is exported three times.
fn repeated(rt: &HostRuntime) -> Result<()> {
    let text = "export {a}; export {a}; export {a};";
    let pages = [
        braces(span(0, 11), &[plain(name(8, 9))])?,
        braces(span(12, 23), &[plain(name(20, 21))])?,
        braces(span(24, 35), &[plain(name(32, 33))])?,
    ];
    Ok(show(rt, text, &pages)?)
}

// Several defaults, of which one is of a source with a lone surrogate, which has no row.
fn several_defaults(rt: &HostRuntime) -> Result<()> {
    let text = "export {a as default}; export default 1; export {default} from \"?\";";
    let pages = [
        braces(span(0, 22), &[renamed(name(8, 9), name(13, 20))])?,
        default(
            span(23, 40),
            span(30, 37),
            span(38, 39),
            DefaultName::Absent,
        ),
        export_from(
            span(41, 67),
            Request {
                lone: true,
                ..module(63, 66)
            },
            &[plain(name(49, 56))],
        )?,
    ];
    Ok(show(rt, text, &pages)?)
}

// Names that stand outside the text read as empty, so that they are the same.
fn damaged(rt: &HostRuntime) -> Result<()> {
    let text = "export { a, b };";
    let pages = [braces(
        span(0, 16),
        &[plain(name(900, 901)), plain(name(4294967290, 4294967295))],
    )?];
    Ok(show(rt, text, &pages)?)
}

// A blank page, a page that fills a table, and one more row than it holds.
fn refused(rt: &HostRuntime) -> Result<()> {
    let text = "import a from \"m\"; import b from \"m\";";
    let pages = [
        Page::blank(),
        import(
            span(0, 18),
            Phase::Evaluation,
            module(14, 17),
            &[bound(Binding::Default, name(7, 8)); 128],
        )?,
        import(
            span(19, 37),
            Phase::Evaluation,
            module(33, 36),
            &[bound(Binding::Default, name(26, 27))],
        )?,
        braces(span(0, 0), &[])?,
    ];
    Ok(show(rt, text, &pages)?)
}

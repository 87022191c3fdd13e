//! Files the pages of some sample modules and prints the records that they close to, and then how much a record
//! holds.
#![tactic(auto)]

mod build;
mod in_text;
mod limits;
mod samples;
mod show;

use crate::limits::show_limits;
use crate::samples::show_samples;

fn main(rt: HostRuntime) -> anyhow::Result<()> {
    show_samples(&rt)?;
    show_limits(&rt)
}

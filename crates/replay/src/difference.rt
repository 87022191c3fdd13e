//! Two texts that should be the same: what a vector has, and what the library's answer was written as.
ghost use Rattle.std.specs.Prelude.{◌≡◌, MatchOption, ◌≢◌};

use crate::lines::Lines;
use std::fmt;

/// The first lines that differ; None where a text has no further line.
#[derive(Clone, Copy)]
pub struct Difference<'a> {
    expected: Option<&'a str>,
    found: Option<&'a str>,
}

impl fmt::Display for Difference<'_> {
    fn fmt<W: fmt::Write>(&self, f: &mut fmt::Formatter<W>) -> fmt::Result {
        let expected = self.expected.unwrap_or(NO_LINE);
        let found = self.found.unwrap_or(NO_LINE);
        write!(f, "  expected: {expected}\n  found:    {found}")
    }
}

// What is shown for a line where a text has none.
const NO_LINE: &str = "(no line)";

/// The difference of two texts; None exactly where they are the same, byte for byte. They come from two places and are
/// asked nothing else, so that no struct holds both.
pub fn first_difference<'a>(expected: &'a str, found: &'a str) -> Option<Difference<'a>>
    ensures { MatchOption result (expected.now ≡ found.now) (λ _. expected.now ≢ found.now) }
{
    if expected == found {
        None
    } else {
        Some(first_lines(expected, found))
    }
}

// The first lines of two texts that differ, or what follows the shorter one.
fn first_lines<'a>(expected: &'a str, found: &'a str) -> Difference<'a> {
    let mut others = Lines::new(found);
    for line in Lines::new(expected) {
        let (expected, found) = (Some(line), others.next());
        if expected != found {
            return Difference { expected, found };
        }
    }
    Difference {
        expected: None,
        found: others.next(),
    }
}

//! Lists of entries, gone through from the front.
ghost use Rattle.std.specs.Prelude.{◌≡◌, ◌^◌, ◌<◌, List, [], ◌∷◌, length, MatchOption};
ghost use Rattle.lexer.specs.Entries.{Entry, Found};

use crate::entry::{Broken, Ending};
use crate::token::Token;
use kinds::kind::Kind;

// Entries that are to come: rows of a table, or records of a file. A trait of its own, and no bound by Iterator: of such
// a bound a `for` knows no more than what each step gave, so that `scan` would have to ask that the steps give a list,
// and each source to show it; here one sentence says what is taken and what is left.
pub(crate) trait Entries: Copy {
    // The entries.
    ghost entries: { Self → List Entry };

    // The first entry, and those after it. None where there are none.
    fn split_first(self) -> Option<(Result<Token, Broken>, Self)>
        ensures { MatchOption result (entries self ≡ []) (λ x. entries self ≡ x.0 ∷ entries x.1) };
}

// How many tokens there are, and where their list ends. The count stands beside the ending: with a bad entry it is one
// more than the number there, a sum that would want its bound at each look.
#[derive(Clone, Copy, Debug)]
pub(crate) struct Extent {
    pub count: usize,
    pub ending: Ending,
}

impl Extent {
    fn new(count: usize, ending: Ending) -> Extent
        ensures tokens { result.count ≡ count }
        ensures ends { result.ending ≡ ending }
    {
        Extent { count, ending }
    }
}

// How many tokens the entries have, and where their list ends. The count that is raised here is the answer.
// The bound is that of a slice in memory, which a ghost list cannot promise.
pub(crate) fn scan<E: Entries>(entries: E) -> Extent
    requires { length (E.entries entries) < 2 ^ 64 }
    ensures { Found (E.entries entries) result.count result.ending }
{
    let mut rest = entries;
    let mut count = 0;
    while let Some((entry, after)) = rest.split_first() {
        match entry {
            Err(broken) => return Extent::new(count + 1, Ending::AtBad(count, broken)),
            Ok(token) => {
                if token.kind == Kind::Eof {
                    return Extent::new(count, Ending::AtEof(count));
                }
            }
        }
        rest = after;
        count += 1;
    }
    Extent::new(count, Ending::AtEnd(count))
}

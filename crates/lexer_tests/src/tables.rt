//! Token tables, and a source that numbers places by its steps alone.
use kinds::kind::Kind;
use lexer::entry::{Broken, Ending};
use lexer::source::Source;
use lexer::table::TokenTable;
use lexer::token::{Part, Span, Token};
use lexer::walk::walk;
use std::test::Fail;

// An identifier with this span and part.
fn name(start: u32, end: u32, place: u32, len: u32) -> Token {
    Token {
        kind: Kind::Ident,
        span: Span { start, end },
        text: Part { place, len },
        new_line: false,
        escaped: false,
        lone: false,
    }
}

#[test]
fn rows_and_their_ending(rt: HostRuntime) -> Result<(), Fail> {
    let sound = [name(0, 3, 0, 3), name(4, 4, 3, 0)];
    let table = TokenTable::new(&sound, b"abc");
    assert_eq!(rt; walk(rt.alloc(), &table)?.len(), 2);
    assert_eq!(rt; table.ending(), Ending::AtEnd(2));
    let backward = [name(0, 3, 0, 3), name(4, 3, 0, 3), name(5, 6, 0, 1)];
    let table = TokenTable::new(&backward, b"abc");
    assert_eq!(rt; walk(rt.alloc(), &table)?.len(), 2);
    assert_eq!(rt; table.look(1).kind, Kind::Undetermined);
    assert_eq!(rt; table.look(1).span.start, 0);
    assert_eq!(rt; table.look(2).kind, Kind::Eof);
    assert_eq!(rt; table.ending(), Ending::AtBad(1, Broken::BadEnd));
    let outside = [name(0, 3, 1, 3)];
    let table = TokenTable::new(&outside, b"abc");
    assert_eq!(rt; table.ending(), Ending::AtBad(0, Broken::OutsideText));
    assert_eq!(rt; table.number_of(0), 0);
    assert_eq!(rt; table.number_of(9), 1);
    Ok(())
}

#[test]
fn an_eof_row_ends_the_list(rt: HostRuntime) {
    let rows = [name(0, 3, 0, 3), Token::ended(), name(4, 5, 0, 1)];
    let table = TokenTable::new(&rows, b"abc");
    assert_eq!(rt; table.ending(), Ending::AtEof(1));
    assert_eq!(rt; table.after(0), 1);
    assert_eq!(rt; table.after(1), 1);
    assert_eq!(rt; table.look(2).kind, Kind::Eof);
}

// A token table that answers the questions alone: the number of a place comes from steps, as the trait has it.
#[derive(Drop)]
struct Steps<'a>(TokenTable<'a>);

impl Source for Steps<'_> {
    ghost tokens = { λ s. ⟦<TokenTable<'static> as Source>⟧.tokens s.0 };

    ghost bytes = { λ s. ⟦<TokenTable<'static> as Source>⟧.bytes s.0 };

    ghost place_of = { λ s. ⟦<TokenTable<'static> as Source>⟧.place_of s.0 };

    ghost number_at = { λ s. ⟦<TokenTable<'static> as Source>⟧.number_at s.0 };

    ghost orderly = { λ s. ⟦<TokenTable<'static> as Source>⟧.orderly s.0 };

    ghost alive = { λ s. ⟦<TokenTable<'static> as Source>⟧.alive s.0 };

    fn first(&self) -> usize {
        self.0.first()
    }

    fn look(&self, place: usize) -> Token {
        self.0.look(place)
    }

    fn after(&self, place: usize) -> usize {
        self.0.after(place)
    }

    fn text(&self) -> &[u8] {
        self.0.text()
    }
}

#[test]
fn steps_number_the_places(rt: HostRuntime) -> Result<(), Fail> {
    let rows = [name(0, 3, 0, 3), name(4, 4, 3, 0), Token::ended()];
    let steps = Steps(TokenTable::new(&rows, b"abc"));
    assert_eq!(rt; walk(rt.alloc(), &steps)?.len(), 2);
    assert_eq!(rt; steps.number_of(0), 0);
    assert_eq!(rt; steps.number_of(1), 1);
    assert_eq!(rt; steps.number_of(2), 2);
    assert_eq!(rt; steps.number_of(9), 2);
    Ok(())
}

#[test]
fn a_part_outside_the_text_is_empty(rt: HostRuntime) {
    assert_eq!(rt; Part { place: 1, len: 2 }.of(b"abc").len(), 2);
    assert_eq!(rt; Part { place: 1, len: 3 }.of(b"abc").len(), 0);
    assert_eq!(rt;
        Part {
            place: 4294967295,
            len: 4294967295
        }
        .of(b"abc")
        .len(),
        0
    );
}

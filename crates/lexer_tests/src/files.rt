//! Token files.
use crate::given::{EOF, NAME, Reading, file_of, read};
use kinds::kind::Kind;
use lexer::entry::{Broken, Ending};
use lexer::file::TokenFile;
use lexer::record::Record;
use lexer::source::Source;
use std::process::Abort;
use std::test::Fail;

// The bytes read so.
fn reads(rt: &(impl Abort + AllocGlobal), bytes: &[u8], expected: Reading) -> Result<(), Fail> {
    let found = read(rt.alloc(), bytes)?;
    assert_eq!(rt; found, expected);
    Ok(())
}

// The same of the bytes of records.
fn records_read(
    rt: &(impl Abort + AllocGlobal),
    records: &[Record],
    expected: Reading,
) -> Result<(), Fail> {
    let file = file_of(rt.alloc(), records)?;
    reads(rt, file.as_slice(), expected)
}

#[test]
fn an_empty_file_has_no_tokens(rt: HostRuntime) -> Result<(), Fail> {
    let nothing = Reading {
        count: 0,
        last: None,
        ending: Ending::AtEnd(0),
    };
    reads(&rt, b"", nothing)
}

#[test]
fn a_record_cut_short_is_bad(rt: HostRuntime) -> Result<(), Fail> {
    let file = file_of(rt.alloc(), &[NAME, NAME])?;
    let bytes = file.as_slice();
    assert_eq!(rt; bytes.len(), 28);
    let first = Reading {
        count: 1,
        last: Some(Kind::Undetermined),
        ending: Ending::AtBad(0, Broken::CutShort),
    };
    let second = Reading {
        count: 2,
        last: Some(Kind::Undetermined),
        ending: Ending::AtBad(1, Broken::CutShort),
    };
    // every length at which a record is cut short
    for n in 1..14usize {
        reads(&rt, &bytes[0..n], first)?;
        reads(&rt, &bytes[0..14 + n], second)?;
    }
    let whole = Reading {
        count: 2,
        last: Some(Kind::Ident),
        ending: Ending::AtEnd(2),
    };
    reads(&rt, bytes, whole)
}

// A record between two sound ones, which breaks this rule and no earlier one.
fn breaks(rt: &(impl Abort + AllocGlobal), record: Record, rule: Broken) -> Result<(), Fail> {
    let broken = Reading {
        count: 2,
        last: Some(Kind::Undetermined),
        ending: Ending::AtBad(1, rule),
    };
    records_read(rt, &[NAME, record, NAME], broken)
}

// A record between two sound ones that is sound itself.
fn stands(rt: &(impl Abort + AllocGlobal), record: Record) -> Result<(), Fail> {
    let sound = Reading {
        count: 3,
        last: Some(Kind::Ident),
        ending: Ending::AtEnd(3),
    };
    records_read(rt, &[NAME, record, NAME], sound)
}

#[test]
fn each_rule_alone(rt: HostRuntime) -> Result<(), Fail> {
    breaks(&rt, Record { kind: 169, ..NAME }, Broken::NoKind)?;
    breaks(&rt, Record { kind: 255, ..NAME }, Broken::NoKind)?;
    breaks(&rt, Record { marks: 8, ..NAME }, Broken::OtherMark)?;
    breaks(&rt, Record { marks: 135, ..NAME }, Broken::OtherMark)?;
    breaks(
        &rt,
        Record {
            start: 4294967295,
            length: 1,
            ..NAME
        },
        Broken::BadEnd,
    )?;
    breaks(
        &rt,
        Record {
            place: 4,
            text_length: 0,
            ..NAME
        },
        Broken::OutsideText,
    )?;
    breaks(
        &rt,
        Record {
            place: 4294967295,
            text_length: 65535,
            ..NAME
        },
        Broken::OutsideText,
    )
}

#[test]
fn two_rules_together(rt: HostRuntime) -> Result<(), Fail> {
    breaks(
        &rt,
        Record {
            kind: 169,
            marks: 8,
            ..NAME
        },
        Broken::NoKind,
    )?;
    breaks(
        &rt,
        Record {
            marks: 8,
            start: 4294967295,
            ..NAME
        },
        Broken::OtherMark,
    )?;
    breaks(
        &rt,
        Record {
            start: 4294967295,
            place: 4,
            ..NAME
        },
        Broken::BadEnd,
    )?;
    breaks(
        &rt,
        Record {
            kind: 200,
            place: 4,
            ..NAME
        },
        Broken::NoKind,
    )
}

#[test]
fn the_limits_stand(rt: HostRuntime) -> Result<(), Fail> {
    stands(&rt, Record { kind: 168, ..NAME })?;
    stands(&rt, Record { marks: 7, ..NAME })?;
    stands(
        &rt,
        Record {
            start: 4294967295,
            length: 0,
            ..NAME
        },
    )?;
    stands(
        &rt,
        Record {
            start: 4294901760,
            length: 65535,
            ..NAME
        },
    )?;
    breaks(
        &rt,
        Record {
            start: 4294901761,
            length: 65535,
            ..NAME
        },
        Broken::BadEnd,
    )?;
    stands(
        &rt,
        Record {
            place: 3,
            text_length: 0,
            ..NAME
        },
    )?;
    stands(
        &rt,
        Record {
            place: 1,
            text_length: 2,
            ..NAME
        },
    )?;
    breaks(
        &rt,
        Record {
            place: 1,
            text_length: 3,
            ..NAME
        },
        Broken::OutsideText,
    )
}

#[test]
fn an_eof_ends_the_list(rt: HostRuntime) -> Result<(), Fail> {
    let nothing = Reading {
        count: 0,
        last: None,
        ending: Ending::AtEof(0),
    };
    records_read(&rt, &[EOF, NAME], nothing)?;
    let name = Reading {
        count: 1,
        last: Some(Kind::Ident),
        ending: Ending::AtEof(1),
    };
    records_read(&rt, &[NAME, EOF, NAME], name)?;
    breaks(&rt, Record { marks: 16, ..EOF }, Broken::OtherMark)?;
    let after = Record { kind: 169, ..NAME };
    records_read(&rt, &[NAME, EOF, after], name)
}

#[test]
fn places_and_numbers(rt: HostRuntime) -> Result<(), Fail> {
    let second = Record {
        marks: 2,
        start: 5,
        ..NAME
    };
    let bytes = file_of(rt.alloc(), &[NAME, second])?;
    let file = TokenFile::new(bytes.as_slice(), b"abc");
    assert_eq!(rt; file.first(), 0);
    assert_eq!(rt; file.look(0).kind, Kind::Ident);
    assert_eq!(rt; file.look(14).span.end, 8);
    assert!(rt; file.look(14).escaped);
    assert_eq!(rt; file.look(7).kind, Kind::Eof);
    assert_eq!(rt; file.look(28).kind, Kind::Eof);
    assert_eq!(rt; file.look(18446744073709551615).kind, Kind::Eof);
    assert_eq!(rt; file.after(0), 14);
    assert_eq!(rt; file.after(7), 7);
    assert_eq!(rt; file.after(28), 28);
    assert_eq!(rt; file.number_of(14), 1);
    assert_eq!(rt; file.number_of(13), 2);
    assert_eq!(rt; file.number_of(28), 2);
    Ok(())
}

// Sources and sinks that fail, or move few bytes at a time.
use super::tests::{Ends, GROUP, GROUP_REPORT, Outcome, SOUND, run_at};
use ports::Open;
use std::test::Fail;
use std::thread::Threads;

const NAME: &[&str] = &["semi"];

// The words that make the dihedral group of order 6.
const MADE: &[&str] = &["semi", "--make", "3"];

const MADE_REPORT: &str = "index 6\nequal no\nnormal bb\n1\na\nb\nmore\n";

// All maps of three points to themselves.
const ELEMENTS: &str = "trans 3\na = 1 0 2\nb = 1 2 0\nc = 0 0 2\n\
                        index\nequal aaa a\nnormal aaa\nelement ab\nclasses 4\n";

const ELEMENTS_REPORT: &str = "index 27\nequal yes\nnormal a\nelement 2 1 0\na\nb\nc\naa\nmore\n";

// Whether a run came to this status and these bytes.
fn is_as(ended: &Outcome, status: u8, out: &str, err: &str) -> bool {
    ended.status == status
        && ended.out.as_slice() == out.as_bytes()
        && ended.err.as_slice() == err.as_bytes()
}

// Whether a run that ended with this status left a beginning of `out`, and of `err`.
fn begins(ended: &Outcome, status: u8, out: &str, err: &str) -> bool {
    ended.status == status
        && out.as_bytes().starts_with(ended.out.as_slice())
        && err.as_bytes().starts_with(ended.err.as_slice())
}

// How many reads a script takes, where each of them that fails is told and nothing is written.
fn reads_of<R: Threads + Sync + AllocGlobal>(
    rt: &R,
    words: &[&str],
    script: &str,
) -> Result<Option<u64>, Fail> {
    for read in 1..1000 {
        let ends = Ends { read, ..SOUND };
        let ended = run_at(rt, words, script.as_bytes(), ends, &Open)?;
        if ended.status == 0 {
            return Ok(Some(read - 1));
        }
        if !is_as(&ended, 4, "", "semi: cannot read input\n") {
            return Ok(None);
        }
    }
    Ok(None)
}

// How many writes a report takes, if each of them that fails is told and leaves a beginning.
fn writes_of<R: Threads + Sync + AllocGlobal>(
    rt: &R,
    words: &[&str],
    script: &str,
    report: &str,
) -> Result<u64, Fail> {
    for write in 1..1000 {
        let ends = Ends { write, ..SOUND };
        let ended = run_at(rt, words, script.as_bytes(), ends, &Open)?;
        if ended.status == 0 {
            return Ok(write - 1);
        }
        let told = "semi: cannot write output\n";
        if !begins(&ended, 5, report, told) || ended.err.len() < told.len() {
            return Ok(0);
        }
    }
    Ok(0)
}

// How many writes the line of a fault takes, if each of them that fails leaves the status as it is.
fn tells_of<R: Threads + Sync + AllocGlobal>(
    rt: &R,
    script: &str,
    status: u8,
    line: &str,
) -> Result<u64, Fail> {
    for tell in 1..1000 {
        let ends = Ends { tell, ..SOUND };
        let ended = run_at(rt, NAME, script.as_bytes(), ends, &Open)?;
        if is_as(&ended, status, "", line) {
            return Ok(tell - 1);
        }
        if !begins(&ended, status, "", line) {
            return Ok(0);
        }
    }
    Ok(0)
}

// Whether pieces of one to nine bytes of a write give this report, with these pieces of a read.
fn gives_by_writes<R: Threads + Sync + AllocGlobal>(
    rt: &R,
    words: &[&str],
    script: &str,
    report: &str,
    read_piece: usize,
) -> Result<bool, Fail> {
    for write_piece in 1..10 {
        let ends = Ends {
            read_piece,
            write_piece,
            ..SOUND
        };
        let ended = run_at(rt, words, script.as_bytes(), ends, &Open)?;
        if !is_as(&ended, 0, report, "") {
            return Ok(false);
        }
    }
    Ok(true)
}

// Whether pieces of one to nine bytes, of a read and of a write, give this report.
fn gives_by_pieces<R: Threads + Sync + AllocGlobal>(
    rt: &R,
    words: &[&str],
    script: &str,
    report: &str,
) -> Result<bool, Fail> {
    for read_piece in 1..10 {
        if !gives_by_writes(rt, words, script, report, read_piece)? {
            return Ok(false);
        }
    }
    Ok(true)
}

#[test]
fn each_read_that_fails_is_told(rt: HostRuntime) -> Result<(), Fail> {
    // eight bytes a read, and one more that finds the end; none where the script is made
    assert_eq!(rt; reads_of(&rt, NAME, ELEMENTS)?, Some(12));
    assert_eq!(rt; reads_of(&rt, NAME, GROUP)?, Some(9));
    assert_eq!(rt; reads_of(&rt, MADE, GROUP)?, Some(0));
    Ok(())
}

#[test]
fn each_write_that_fails_leaves_a_beginning(rt: HostRuntime) -> Result<(), Fail> {
    // five bytes a write, and each line by itself
    assert_eq!(rt; writes_of(&rt, NAME, ELEMENTS, ELEMENTS_REPORT)?, 14);
    assert_eq!(rt; writes_of(&rt, NAME, GROUP, GROUP_REPORT)?, 21);
    assert_eq!(rt; writes_of(&rt, MADE, "", MADE_REPORT)?, 10);
    Ok(())
}

#[test]
fn pieces_of_each_length_give_one_report(rt: HostRuntime) -> Result<(), Fail> {
    assert!(rt; gives_by_pieces(&rt, NAME, ELEMENTS, ELEMENTS_REPORT)?);
    assert!(rt; gives_by_pieces(&rt, NAME, GROUP, GROUP_REPORT)?);
    assert!(rt; gives_by_pieces(&rt, MADE, "", MADE_REPORT)?);
    Ok(())
}

#[test]
fn a_line_that_is_not_told_changes_no_status(rt: HostRuntime) -> Result<(), Fail> {
    assert!(rt; tells_of(&rt, "trans 2\n", 2, "semi: line 2: no generator\n")? > 5);
    assert!(rt; tells_of(&rt, "", 2, "semi: line 1: header missing\n")? > 5);
    Ok(())
}

const SMALL: &str = "monoid a";

const BYTE_BY_BYTE: Ends = Ends {
    read_piece: 1,
    write_piece: 1,
    ..SOUND
};

const ALL_FAIL: Ends = Ends {
    read: 1,
    write: 1,
    tell: 1,
    ..SOUND
};

const WRITE_FAILS: Ends = Ends { write: 1, ..SOUND };

const READ_TOLD: &str = "semi: cannot read input\n";

const WRITE_TOLD: &str = "semi: cannot write output\n";

// The words, the script, how the ends go, and the status and the bytes that the run comes to.
type Case = (
    &'static [&'static str],
    &'static str,
    Ends,
    u8,
    &'static str,
    &'static str,
);

const CASES: [Case; 10] = [
    // the ninth read finds the end
    (
        NAME,
        SMALL,
        Ends {
            read: 9,
            ..BYTE_BY_BYTE
        },
        4,
        "",
        READ_TOLD,
    ),
    (
        NAME,
        SMALL,
        Ends {
            read: 10,
            ..BYTE_BY_BYTE
        },
        0,
        "",
        "",
    ),
    (NAME, ELEMENTS, WRITE_FAILS, 5, "", WRITE_TOLD),
    (
        NAME,
        ELEMENTS,
        Ends {
            tell: 1,
            ..WRITE_FAILS
        },
        5,
        "",
        "",
    ),
    (
        NAME,
        ELEMENTS,
        Ends {
            write_piece: 2,
            write: 3,
            ..SOUND
        },
        5,
        "inde",
        WRITE_TOLD,
    ),
    // the longest line is written at once
    (
        MADE,
        "",
        Ends {
            write_piece: 10,
            write: 4,
            ..SOUND
        },
        5,
        "index 6\nequal no\nnormal bb\n",
        WRITE_TOLD,
    ),
    // nothing is read
    (
        &["semi", "--workers", "0"],
        GROUP,
        Ends { read: 1, ..SOUND },
        3,
        "",
        "semi: arguments refused\n",
    ),
    // the first failure gives the status
    (NAME, ELEMENTS, ALL_FAIL, 4, "", ""),
    (&["semi", "x"], ELEMENTS, ALL_FAIL, 3, "", ""),
    (&[], ELEMENTS, SOUND, 0, ELEMENTS_REPORT, ""),
];

// Whether a case comes to its end.
fn comes_to_its_end<R: Threads + Sync + AllocGlobal>(rt: &R, case: Case) -> Result<bool, Fail> {
    let (words, script, ends, status, out, err) = case;
    let ended = run_at(rt, words, script.as_bytes(), ends, &Open)?;
    Ok(is_as(&ended, status, out, err))
}

#[test]
fn failing_ends_give_their_status(rt: HostRuntime) -> Result<(), Fail> {
    for (number, case) in CASES.iter().enumerate() {
        assert!(rt; comes_to_its_end(&rt, *case)?, "case {number}");
    }
    Ok(())
}

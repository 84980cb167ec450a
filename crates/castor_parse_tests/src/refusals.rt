//! Texts that are refused, with their places, and the limits at their edges.

use crate::shown::refusal;
use castor_parse::ParseError;
use std::alloc::{AllocError, Global};
use std::process::Abort;
use std::test::Fail;

/// A text of any length: a piece a number of times, and behind what stands in the middle another one as
/// often.
#[derive(Clone, Copy)]
struct Shape<'a> {
    before: &'a str,
    piece: &'a str,
    middle: &'a str,
    end: &'a str,
    after: &'a str,
}

/// A piece a number of times between two texts.
fn row<'a>(before: &'a str, piece: &'a str, after: &'a str) -> Shape<'a> {
    Shape {
        before,
        piece,
        middle: after,
        end: "",
        after: "",
    }
}

impl<'a> Shape<'a> {
    fn text(&self, alloc: Global, times: usize) -> Result<String, AllocError> {
        let mut text = String::from_str(alloc, self.before)?;
        for _ in 0..times {
            text.push_str(self.piece)?;
        }
        text.push_str(self.middle)?;
        for _ in 0..times {
            text.push_str(self.end)?;
        }
        text.push_str(self.after)?;
        Ok(text)
    }

    fn refusal(&self, alloc: Global, times: usize) -> Result<Option<ParseError>, AllocError> {
        let text = self.text(alloc, times)?;
        Ok(refusal(alloc, text.as_bytes()))
    }
}

#[test]
fn faults_have_their_places(rt: HostRuntime) -> Result<(), Fail> {
    let cases = [
        ("", 0),
        ("query", 5),
        ("query filter(", 13),
        ("query t t", 8),
        ("query t;", 7),
        ("quer t", 0),
        ("query select", 12),
        ("query dec", 6),
        ("query dedup(query)", 12),
        ("query cross()", 12),
        ("query select([], t)", 14),
        ("query orderby([], t)", 15),
        ("query hash(t as k, s, [])", 23),
        ("query filter(a = b = c, t)", 19),
        ("query scalar(9223372036854775808)", 13),
        ("query scalar(- 9223372036854775809)", 15),
        ("query scalar(#4294967296)", 14),
        ("query scalar(k.4294967296)", 15),
        ("query scalar(-x)", 14),
        ("query scalar($1)", 14),
        ("query orderby([k.0], t)", 17),
        ("query ordered(r as k, s, < 1, > 2)", 25),
        ("query depjoin(r, s)", 15),
        ("table t (); query t", 9),
        ("table t (a dec); query t", 11),
        ("param p int query t", 12),
        ("query t ?", 8),
        ("query t ! = 1", 8),
        ("query scalar('it''s)", 20),
        ("query 1", 6),
        ("query count()", 6),
        ("query select(a, t)", 13),
        ("query select([a as], t)", 18),
        ("query select([a as sum], t)", 19),
        ("query filter(t)", 14),
        ("query join(a, t)", 15),
        ("query depjoin(t as list, t)", 19),
        ("query hash(t as k, s)", 20),
        ("query ordered(r as k, s, any)", 28),
        ("query groupby([a + 1], [], t)", 17),
        ("query groupby([], [avg(a)], t)", 19),
        ("query groupby([], [count(a)], t)", 25),
        ("query groupby([], [sum()], t)", 23),
        ("query scalar(())", 14),
        ("query scalar(not)", 16),
        ("query scalar(a +)", 16),
        ("query scalar(k.)", 15),
        ("query scalar(#a)", 14),
        ("query scalar(if(a, b))", 20),
        ("table (a int); query t", 6),
        ("table t (a int b int); query t", 15),
        ("param p int;", 12),
        // A stray byte comes before a token that can't stand there.
        ("query filter(1 = , ?", 19),
    ];
    for case in cases.as_slice() {
        let found = refusal(rt.alloc(), case.0.as_bytes());
        assert_eq!(rt;
            found,
            Some(ParseError::Syntax { at: case.1 }),
            "{}",
            case.0
        );
    }
    assert_eq!(rt;
        refusal(rt.alloc(), b"query \xff"),
        Some(ParseError::NotUtf8)
    );
    Ok(())
}

#[test]
fn limits_hold_at_their_edges(rt: HostRuntime) -> Result<(), Fail> {
    let alloc = rt.alloc();
    let cases = [
        // The bytes of a file.
        (row("query t", " ", ""), 1_048_569),
        // The bytes of a name.
        (row("query ", "x", ""), 64),
        // The bytes of a text after its quotes are undone.
        (row("query scalar('", "''", "')"), 65_535),
        // Open parentheses, with that of the scalar.
        (
            Shape {
                before: "query scalar(",
                piece: "(",
                middle: "a",
                end: ")",
                after: ")",
            },
            255,
        ),
        // Nodes: the concat and its operands.
        (row("query concat(t", ", t", ")"), 4094),
        // The depth: the scalar, the operators and the leaf below them.
        (row("query scalar(a", " + a", ")"), 62),
        (row("query scalar(", "not ", "a)"), 62),
        // The depth: the operators and the table below them.
        (
            Shape {
                before: "query ",
                piece: "dedup(",
                middle: "t",
                end: ")",
                after: "",
            },
            63,
        ),
    ];
    for case in cases.as_slice() {
        let within = case.0.refusal(alloc, case.1)?;
        assert_eq!(rt; within, None, "{}", case.0.piece);
        let past = case.0.refusal(alloc, case.1 + 1)?;
        assert_eq!(rt; past, Some(ParseError::TooLarge), "{}", case.0.piece);
    }
    Ok(())
}

#[test]
fn a_token_limit_comes_before_a_fault_of_the_grammar(rt: HostRuntime) -> Result<(), Fail> {
    let alloc = rt.alloc();
    let cases = [
        (row("", "(", ""), 256),
        (row("", "[", ""), 256),
        // A closing one that closes nothing makes no room.
        (row(")))", "(", ""), 256),
        (row("", "not ", ""), 64),
        (row("", "+", ""), 65_536),
    ];
    for case in cases.as_slice() {
        let within = case.0.refusal(alloc, case.1)?;
        assert_eq!(rt;
            within,
            Some(ParseError::Syntax { at: 0 }),
            "{}",
            case.0.piece
        );
        let past = case.0.refusal(alloc, case.1 + 1)?;
        assert_eq!(rt; past, Some(ParseError::TooLarge), "{}", case.0.piece);
    }
    // A byte that begins no token comes before both.
    let stray = row("", "+", "?").refusal(alloc, 65_537)?;
    assert_eq!(rt; stray, Some(ParseError::Syntax { at: 65_537 }));
    Ok(())
}

#[test]
fn a_fault_of_the_grammar_comes_before_a_tree_that_is_too_large(
    rt: HostRuntime,
) -> Result<(), Fail> {
    let found = row("query concat(t", ", t", "").refusal(rt.alloc(), 5000)?;
    assert_eq!(rt; found, Some(ParseError::Syntax { at: 15_014 }));
    Ok(())
}

#[test]
fn deep_texts_end(rt: HostRuntime) -> Result<(), Fail> {
    let alloc = rt.alloc();
    let cases = [
        (
            row("", "((((((((((", ""),
            100_000,
            Some(ParseError::TooLarge),
        ),
        (
            row("query scalar(", "not ", ""),
            200_000,
            Some(ParseError::TooLarge),
        ),
        (
            row("query ", "filter(a,", ""),
            100_000,
            Some(ParseError::TooLarge),
        ),
        // As deep as parentheses nest.
        (
            row("query ", "dedup(", ""),
            256,
            Some(ParseError::Syntax { at: 1542 }),
        ),
        (
            row("query scalar(", "if(", ""),
            255,
            Some(ParseError::Syntax { at: 778 }),
        ),
    ];
    for case in cases.as_slice() {
        let found = case.0.refusal(alloc, case.1)?;
        assert_eq!(rt; found, case.2, "{}", case.0.piece);
    }
    Ok(())
}

#[test]
fn long_lists_and_chains_end(rt: HostRuntime) -> Result<(), Fail> {
    let alloc = rt.alloc();
    let cases = [
        // 65,536 tokens in one concat, closed and not.
        (
            row("query dedup(concat(t", ",t", "))"),
            32_764,
            Some(ParseError::TooLarge),
        ),
        (
            row("query concat(t", ",t", ""),
            32_766,
            Some(ParseError::Syntax { at: 65_546 }),
        ),
        (
            row("query scalar(1", "+1", ")"),
            32_700,
            Some(ParseError::TooLarge),
        ),
        (
            row("query scalar(a", " or a", ")"),
            32_700,
            Some(ParseError::TooLarge),
        ),
    ];
    for case in cases.as_slice() {
        let found = case.0.refusal(alloc, case.1)?;
        assert_eq!(rt; found, case.2, "{}", case.0.piece);
    }
    Ok(())
}

#[test]
fn a_long_token_or_comment_ends(rt: HostRuntime) -> Result<(), Fail> {
    let alloc = rt.alloc();
    let cases = [
        // One comment, and 1,048,576 bytes in all.
        (row("query t --", "xxxxxx", ""), 174_761, None),
        (
            row("query ", "xxxxxxxxxx", ""),
            100_000,
            Some(ParseError::TooLarge),
        ),
        (
            row("query scalar(", "9999999999", ")"),
            100_000,
            Some(ParseError::Syntax { at: 13 }),
        ),
        (
            row("query scalar('", "''''''''''", "')"),
            100_000,
            Some(ParseError::TooLarge),
        ),
        (
            row("query scalar('", "''''''''''", ""),
            100_000,
            Some(ParseError::Syntax { at: 1_000_014 }),
        ),
    ];
    for case in cases.as_slice() {
        let found = case.0.refusal(alloc, case.1)?;
        assert_eq!(rt; found, case.2, "{}", case.0.piece);
    }
    Ok(())
}

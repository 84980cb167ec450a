//! The limits, at their edges.

ghost use Rattle.std.specs.Prelude.{◌≡◌, ◌++◌, [], ◌∷◌, IfOk};
ghost use Rattle.castor_tree.specs.Formed.{IsFormed};

use crate::checks::{refusal, refusal_of};
use castor_parse::{File, PCol, PRel, parse};
use castor_schema::SchemaError;
use sqlite_items::Items;
use std::alloc::{AllocError, Global};
use std::process::Abort;
use std::test::Fail;

/// Parts that are numbered from 0: what stands before and behind each number, and how many there are.
#[derive(Clone, Copy)]
struct Parts<'a> {
    before: &'a str,
    behind: &'a str,
    count: u32,
}

fn numbered<'a>(before: &'a str, behind: &'a str, count: u32) -> Parts<'a> {
    Parts {
        before,
        behind,
        count,
    }
}

impl<'a> Parts<'a> {
    fn push(&self, alloc: Global, text: &mut String) -> Result<(), AllocError> {
        for number in 0..self.count {
            let digits = format!(in alloc; "{number}")?;
            text.push_str(self.before)?;
            text.push_str(digits.as_str())?;
            text.push_str(self.behind)?;
        }
        Ok(())
    }
}

/// Numbered declarations, and a query that reads none of them.
fn declared_refusal(alloc: Global, declarations: Parts<'_>) -> Result<Option<SchemaError>, Fail> {
    let mut text = String::new(alloc);
    declarations.push(alloc, &mut text)?;
    text.push_str("query scalar(1)")?;
    Ok(refusal(alloc, text.as_str())?)
}

#[test]
fn there_are_16_tables_and_16_parameters(rt: HostRuntime) -> Result<(), Fail> {
    let cases = [
        (numbered("table t", " (x int); ", 16), None),
        (
            numbered("table t", " (x int); ", 17),
            Some(SchemaError::TooLarge),
        ),
        (numbered("param p", " int; ", 16), None),
        (
            numbered("param p", " int; ", 17),
            Some(SchemaError::TooLarge),
        ),
    ];
    for case in cases.as_slice() {
        let found = declared_refusal(rt.alloc(), case.0)?;
        assert_eq!(rt; found, case.1, "{} {}", case.0.count, case.0.before);
    }
    Ok(())
}

/// A table of so many columns behind its first, and what stands behind those columns.
fn wide_text(alloc: Global, more: u32, behind: &str) -> Result<String, AllocError> {
    let mut text = String::from_str(alloc, "table wide (x int")?;
    numbered(", x", " int", more).push(alloc, &mut text)?;
    text.push_str(behind)?;
    Ok(text)
}

fn wide_refusal(alloc: Global, more: u32, behind: &str) -> Result<Option<SchemaError>, Fail> {
    let text = wide_text(alloc, more, behind)?;
    Ok(refusal(alloc, text.as_str())?)
}

#[test]
fn a_table_has_64_columns(rt: HostRuntime) -> Result<(), Fail> {
    let cases = [
        (63, "); query wide", None),
        (64, "); query wide", Some(SchemaError::TooLarge)),
        // The names of columns come before their number.
        (
            64,
            ", x0 int); query wide",
            Some(SchemaError::DuplicateName),
        ),
    ];
    for case in cases.as_slice() {
        let found = wide_refusal(rt.alloc(), case.0, case.1)?;
        assert_eq!(rt; found, case.2, "{} columns and {}", case.0, case.1);
    }
    Ok(())
}

/// A query over a table of 64 columns, with a list of numbered parts.
#[derive(Clone, Copy)]
struct WideQuery<'a> {
    before: &'a str,
    parts: Parts<'a>,
    behind: &'a str,
}

impl<'a> WideQuery<'a> {
    fn text(&self, alloc: Global) -> Result<String, AllocError> {
        let mut text = wide_text(alloc, 63, "); query ")?;
        text.push_str(self.before)?;
        self.parts.push(alloc, &mut text)?;
        text.push_str(self.behind)?;
        Ok(text)
    }

    fn refusal(&self, alloc: Global) -> Result<Option<SchemaError>, Fail> {
        let text = self.text(alloc)?;
        Ok(refusal(alloc, text.as_str())?)
    }
}

fn over_wide<'a>(before: &'a str, parts: Parts<'a>, behind: &'a str) -> WideQuery<'a> {
    WideQuery {
        before,
        parts,
        behind,
    }
}

#[test]
fn a_relation_has_64_columns(rt: HostRuntime) -> Result<(), Fail> {
    let large = Some(SchemaError::TooLarge);
    let cases = [
        (
            over_wide("select([1", numbered(", ", "", 63), "], wide)"),
            None,
        ),
        (
            over_wide("select([1", numbered(", ", "", 64), "], wide)"),
            large,
        ),
        (
            over_wide("groupby([x", numbered(", x", "", 63), "], [], wide)"),
            None,
        ),
        (
            over_wide("groupby([x", numbered(", x", "", 63), "], [count()], wide)"),
            large,
        ),
        (
            over_wide("cross(scalar(1)", numbered(", scalar(", ")", 63), ")"),
            None,
        ),
        (
            over_wide("cross(scalar(1)", numbered(", scalar(", ")", 64), ")"),
            large,
        ),
        (
            over_wide(
                "join(true, scalar(1), cross(scalar(1)",
                numbered(", scalar(", ")", 62),
                "))",
            ),
            None,
        ),
        (
            over_wide(
                "join(true, scalar(1), cross(scalar(1)",
                numbered(", scalar(", ")", 63),
                "))",
            ),
            large,
        ),
        // The type of a condition comes before the number of columns.
        (
            over_wide(
                "join(1, scalar(1), cross(scalar(1)",
                numbered(", scalar(", ")", 63),
                "))",
            ),
            Some(SchemaError::TypeMismatch),
        ),
    ];
    for case in cases.as_slice() {
        let found = case.0.refusal(rt.alloc())?;
        assert_eq!(rt; found, case.1, "{} {}", case.0.parts.count, case.0.before);
    }
    Ok(())
}

/// The file with one key more where its query is an `orderby`.
fn with_key(file: File) -> Result<File, AllocError>
    requires formed { IsFormed file }
    ensures formed { IfOk result IsFormed }
{
    let File {
        tokens,
        decls,
        query,
    } = file;
    let query = match query {
        PRel::Order(keys, from) => PRel::Order(with_last(keys, (PCol::Number(0), false))?, from),
        other => other,
    };
    Ok(File {
        tokens,
        decls,
        query,
    })
}

fn with_last(
    mut keys: Items<(PCol, bool)>,
    key: (PCol, bool),
) -> Result<Items<(PCol, bool)>, AllocError>
    ensures more { IfOk result (λ more. more ≡ keys ++ key ∷ []) }
{
    keys.push(key)?;
    Ok(keys)
}

/// Why an `orderby` with one key and so many more is refused. No text has as many as the limit: it would
/// have too many tokens.
fn ordering_refusal(
    alloc: Global,
    mut file: File,
    more: u32,
) -> Result<Option<SchemaError>, AllocError>
    requires formed { IsFormed file }
{
    for _ in 0..more {
        file = with_key(file)?;
    }
    Ok(refusal_of(alloc, file))
}

#[test]
fn an_order_has_65535_keys(rt: HostRuntime) -> Result<(), Fail> {
    let alloc = rt.alloc();
    let text = b"table t (x int); query orderby([x], t)";
    let within = ordering_refusal(alloc, parse(alloc, text)?, 65_534)?;
    assert_eq!(rt; within, None);
    let past = ordering_refusal(alloc, parse(alloc, text)?, 65_535)?;
    assert_eq!(rt; past, Some(SchemaError::TooLarge));
    Ok(())
}

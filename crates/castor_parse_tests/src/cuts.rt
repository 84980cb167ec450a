//! Texts cut into tokens.

use castor_tokens::{Keyword, Kind, Symbol, tokens};
use std::process::Abort;
use std::test::Fail;

#[test]
fn tokens_are_the_longest(rt: HostRuntime) -> Result<(), Fail> {
    let found = tokens(rt.alloc(), b"<=a_1 'x''y'9querying--z\n!=query")?;
    let kinds = [
        (Kind::Symbol(Symbol::Le), 0, 2),
        (Kind::Name, 2, 5),
        (Kind::Text, 6, 12),
        (Kind::Int, 12, 13),
        (Kind::Name, 13, 21),
        (Kind::Symbol(Symbol::Ne), 25, 27),
        (Kind::Keyword(Keyword::Query), 27, 32),
    ];
    assert_eq!(rt; found.len(), kinds.len());
    for (token, due) in found.as_slice().iter().zip(kinds.as_slice()) {
        assert_eq!(rt; token.kind, due.0);
        assert_eq!(rt; token.span.from, due.1);
        assert_eq!(rt; token.span.to, due.2);
    }
    Ok(())
}

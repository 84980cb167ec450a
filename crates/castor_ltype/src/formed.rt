//! The sizes of the numbers of codes.
//!
//! Contracts see numbers without bounds, and a code is well formed only where its numbers have the sizes
//! of their places. What a program holds has them. A walk over the code makes this known of each.

ghost use Rattle.std.specs.Prelude.{◌≡◌, true, ◌&&◌};
ghost use Rattle.std.specs.List.{list_all};
ghost use Rattle.castor_val.specs.Values.{is_int};
ghost use Rattle.castor_ltype.specs.Formed.{is_sized, is_sized_bound, is_sized_expr, is_sized_range, is_u16, is_u32, is_u64};

use castor_alg::{Bound, Expr};
use castor_code::{Code, Range};

/// The same code, each of whose numbers is known to have the size of its place. Linear in the code.
pub fn sized(code: Code) -> Code
    ensures same { result ≡ code }
    ensures sizes { is_sized result ≡ true }
{
    see(&code);
    code
}

#[cycle(see)]
fn see(code: &Code)
    ensures { is_sized code.now ≡ true }
{
    match code {
        Code::Int { lo, hi } => {
            see_int(*lo);
            see_int(*hi);
        }
        Code::Bool => {}
        Code::Text { min, max } => {
            see_u16(*min);
            see_u16(*max);
        }
        Code::Cross(kids) => see_each(kids.as_slice()),
        Code::Concat(kids) => see_each(kids.as_slice()),
        Code::List { count, body, kid } => {
            see_range(*count);
            see_range(*body);
            see(kid.get());
        }
        Code::Hash {
            count,
            body,
            key,
            kid,
            by,
        } => {
            see_range(*count);
            see_range(*body);
            see_each(key.as_slice());
            see(kid.get());
            see_exprs(by.as_slice());
        }
        Code::Ord {
            count,
            body,
            key,
            kid,
            lo,
            hi,
        } => {
            see_range(*count);
            see_range(*body);
            see(key.get());
            see(kid.get());
            see_bound(lo);
            see_bound(hi);
        }
        Code::Select(es, kid) => {
            see_exprs(es.as_slice());
            see(kid.get());
        }
        Code::Filter(e, kid) => {
            see_expr(e);
            see(kid.get());
        }
        Code::Dep(scope, first, second) => {
            see_u32(*scope);
            see(first.get());
            see(second.get());
        }
        Code::Group(_, _, kid) => see(kid.get()),
        Code::Order(_, kid) => see(kid.get()),
        Code::Dedup(kid) => see(kid.get()),
    }
}

#[cycle(see)]
fn see_each(codes: &[Code])
    ensures { list_all is_sized codes.now ≡ true }
{
    for code in codes {
        see(code);
    }
}

fn see_expr(e: &Expr)
    ensures { is_sized_expr e.now ≡ true }
{
    match e {
        Expr::Col(at) => see_u32(*at),
        Expr::Scope(scope, at) => {
            see_u32(*scope);
            see_u32(*at);
        }
        Expr::Param(at) => see_u32(*at),
        Expr::Lit(_) => {}
        Expr::Bin(_, a, b) => {
            see_expr(a.get());
            see_expr(b.get());
        }
        Expr::Not(a) => see_expr(a.get()),
        Expr::If(condition, a, b) => {
            see_expr(condition.get());
            see_expr(a.get());
            see_expr(b.get());
        }
    }
}

fn see_exprs(es: &[Expr])
    ensures { list_all is_sized_expr es.now ≡ true }
{
    for e in es {
        see_expr(e);
    }
}

fn see_bound(bound: &Bound)
    ensures { is_sized_bound bound.now ≡ true }
{
    match bound {
        Bound::Any => {}
        Bound::Incl(e) => see_expr(e),
        Bound::Excl(e) => see_expr(e),
    }
}

fn see_range(range: Range)
    ensures { is_sized_range range ≡ true }
{
    see_u64(range.lo);
    see_u64(range.hi);
}

fn see_int(number: i64)
    ensures { is_int number ≡ true }
{}

fn see_u16(number: u16)
    ensures { is_u16 number ≡ true }
{}

fn see_u32(number: u32)
    ensures { is_u32 number ≡ true }
{}

fn see_u64(number: u64)
    ensures { is_u64 number ≡ true }
{}

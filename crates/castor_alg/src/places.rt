//! Places in a relation: paths of operands, from the root downwards.

ghost use Rattle.std.specs.Prelude.{◌≡◌};
ghost use Rattle.std.specs.Option.{option_copied};
ghost use Rattle.castor_alg.specs.Places.{at_path, of_one, of_two, operand};
ghost use Rattle.castor_alg.specs.declared.rel.Rel.{out-Rel};

use crate::rel::Rel;
use sqlite_items::Boxed;

/// The relation at a path of operands, numbered from 0. None comes exactly where the path leads nowhere.
/// Linear in the path. Takes no memory.
pub fn at<'a>(query: &'a Rel, path: &[u32]) -> Option<&'a Rel>
    ensures { option_copied result ≡ at_path path.now query.now }
{
    let mut found = query;
    for number in path {
        match operand(found, *number) {
            Some(next) => found = next,
            None => return None,
        }
    }
    Some(found)
}

/// The operand of this number, from 0, if there is one.
fn operand(query: &Rel, number: u32) -> Option<&Rel>
    ensures { option_copied result ≡ operand number (out-Rel query.now) }
{
    match query {
        Rel::Table(_) => None,
        Rel::Scalar(_) => None,
        Rel::Cross(rs) => rs.get(number as usize),
        Rel::Concat(rs) => rs.get(number as usize),
        Rel::Select(_, r) => of_one(r, number),
        Rel::Filter(_, r) => of_one(r, number),
        Rel::Join(_, r, s) => of_two(r, s, number),
        Rel::DepJoin(_, r, s) => of_two(r, s, number),
        Rel::Group(_, _, r) => of_one(r, number),
        Rel::Order(_, r) => of_one(r, number),
        Rel::Dedup(r) => of_one(r, number),
        Rel::List(_, r, s) => of_two(r, s, number),
        Rel::Hash(_, r, s, _) => of_two(r, s, number),
        Rel::Ord(_, r, s, _, _) => of_two(r, s, number),
    }
}

fn of_one(r: &Boxed<Rel>, number: u32) -> Option<&Rel>
    ensures { option_copied result ≡ of_one number r.now }
{
    match number {
        0 => Some(r.get()),
        _ => None,
    }
}

fn of_two<'a>(r: &'a Boxed<Rel>, s: &'a Boxed<Rel>, number: u32) -> Option<&'a Rel>
    ensures { option_copied result ≡ of_two number r.now s.now }
{
    match number {
        0 => Some(r.get()),
        1 => Some(s.get()),
        _ => None,
    }
}

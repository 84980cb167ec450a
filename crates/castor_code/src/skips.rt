//! How many fields are read to pass over data.

ghost use Rattle.std.specs.Prelude.{◌≡◌, map, min, sum, true};
ghost use Rattle.castor_val.specs.Limits.{most_count};
ghost use Rattle.castor_code.specs.CodeForms.{is_well_formed};
ghost use Rattle.castor_code.specs.Data.{DataIsTold, ReadsData};
ghost use Rattle.castor_code.specs.Skips.{skip};

use crate::code::Code;

/// The fields that must be read to find where the data of a well-formed code ends: one for a text, one
/// for a list, two for an index, and for other codes as many as for their kids. Linear in the code.
pub fn skip_reads(code: &Code) -> u64
    requires { is_well_formed code.now ≡ true }
    ensures value { result ≡ skip code.now }

    // Data is read as what is held, and what is read is data.
    ensures reads { ReadsData code.now }

    // Data tells what is held and where it ends: no two held data have the same bytes, and no data is a
    // proper front part of other data of the code.
    ensures told { DataIsTold code.now }
{
    skip_of(code)
}

/// The fields to be read, and 2^64 - 1 where there are more.
#[cycle(skip)]
fn skip_of(code: &Code) -> u64
    ensures { result ≡ min (skip code.now) most_count }
{
    match code {
        Code::Int { .. } => 0,
        Code::Bool => 0,
        Code::Text { .. } => 1,
        Code::Cross(kids) => skip_of_all(kids.as_slice()),
        Code::Concat(kids) => skip_of_all(kids.as_slice()),
        Code::List { .. } => 1,
        Code::Hash { .. } => 2,
        Code::Ord { .. } => 2,
        Code::Select(_, kid) => skip_of(kid.get()),
        Code::Filter(_, kid) => skip_of(kid.get()),
        Code::Dep(_, first, second) => skip_of(first.get()).saturating_add(skip_of(second.get())),
        Code::Group(_, _, kid) => skip_of(kid.get()),
        Code::Order(_, kid) => skip_of(kid.get()),
        Code::Dedup(kid) => skip_of(kid.get()),
    }
}

#[cycle(skip)]
fn skip_of_all(codes: &[Code]) -> u64
    ensures { result ≡ min (sum (map skip codes.now)) most_count }
{
    let mut reads: u64 = 0;
    for code in codes {
        reads = reads.saturating_add(skip_of(code));
    }
    reads
}

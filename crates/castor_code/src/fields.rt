//! Fields at the front of bytes and at their end.

ghost use Rattle.std.specs.Prelude.{◌≡◌, ◌≤◌, ◌++◌, OnOk};
ghost use Rattle.std.specs.Option.{option_map};
ghost use Rattle.castor_fixed.specs.Fields.{field, number, width};

use castor_fixed::{get, put, width};
use castor_val::Memory;

/// The number from 0 to `most` whose field comes first, and the bytes after it. None exactly where no
/// such field comes first.
pub fn number_at(bytes: &[u8], most: u64) -> Option<(u64, &[u8])>
    ensures { option_map (λ x. (x.0, x.1.now)) result ≡ number most bytes.now }
{
    let width = field_width(most);
    if bytes.len() < width as usize {
        return None;
    }
    let number = get(bytes, width);
    if number > most {
        return None;
    }
    Some((number, &bytes[width as usize..]))
}

/// Puts the field of a number from 0 to `most` at the end.
pub fn push_field(out: &mut Vec<u8>, most: u64, number: u64) -> Result<(), Memory>
    requires { number ≤ most }
    ensures { OnOk result (out.new.items ≡ out.old.items ++ field most number) }
{
    let width = field_width(most);
    let mut room = [0u8; 8];
    put(&mut room, width, number);
    out.extend_from_slice(&room[..width as usize])?;
    Ok(())
}

/// The width of the fields for the numbers from 0 to `most`, in bytes.
fn field_width(most: u64) -> u8
    ensures value { result ≡ width most }
    ensures within { result ≤ 8 }
{
    width(0, most as i128)
}

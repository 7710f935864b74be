//! Fields that a line has or leaves empty.

ghost use Rattle.std.specs.Prelude.{◌≡◌, ◌≤◌, ◌++◌, ◌∷◌, [], OnOk};
ghost use Rattle.std.specs.Fmt.{decimal};
ghost use Rattle.case_lines.specs.Fields.{number_text, fixed_text_if};

use answers::NoMemory;
use line_text::{put_fixed, put_number};
use spares_input::Name;

/// Writes a whole number, or an empty field.
pub(crate) fn put_number_if(out: &mut Vec<u8>, has: bool, number: u128) -> Result<(), NoMemory>
    ensures { OnOk result (out.new.items ≡ out.old.items ++ number_text has number) }
{
    if has { put_number(out, number) } else { Ok(()) }
}

/// Writes a name and a comma.
pub(crate) fn put_name(out: &mut Vec<u8>, name: &Name) -> Result<(), NoMemory>
    ensures { OnOk result (out.new.items ≡ (out.old.items ++ name.now) ++ 44 ∷ []) }
{
    out.extend_from_slice(name.as_bytes())?;
    out.push(b',')?;
    Ok(())
}

/// Writes a whole number and a comma.
pub(crate) fn put_number_before(out: &mut Vec<u8>, number: u128) -> Result<(), NoMemory>
    ensures { OnOk result (out.new.items ≡ (out.old.items ++ decimal number) ++ 44 ∷ []) }
{
    put_number(out, number)?;
    out.push(b',')?;
    Ok(())
}

/// Writes units of the last of `places` decimals, or an empty field, and a comma.
pub(crate) fn put_fixed_if(
    out: &mut Vec<u8>,
    has: bool,
    places: usize,
    number: u128,
) -> Result<(), NoMemory>
    requires { places ≤ 18 }
    ensures { OnOk result (out.new.items ≡ (out.old.items ++ fixed_text_if has places number) ++ 44 ∷ []) }
{
    if has {
        put_fixed(out, places, number)?;
    }
    out.push(b',')?;
    Ok(())
}

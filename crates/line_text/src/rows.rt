//! Lines of a word, of a number, and of a word and a number.

ghost use Rattle.std.specs.Prelude.{ℕ};
ghost use Rattle.line_text.specs.Files.{file_text};
ghost use Rattle.line_text.specs.Texts.{word, number, count_fields, count_line, number_line, word_line};
ghost use Rattle.line_text.specs.Reading.{Reads, Takes};
ghost use Rattle.line_text.specs.Writing.{Puts};

use crate::bad_line::BadLine;
use crate::lines::{Fields, Lines};
use crate::numbers::put_number;
use answers::NoMemory;

/// Takes a word and a number from a line's fields.
fn count_of(fields: &mut Fields<'_>, name: &[u8], least: u128, most: u128) -> Option<u128>
    ensures { Takes (λ n. n) result fields.new ((count_fields name.now least most).read fields.old) }
{
    fields.word(name)?;
    fields.number(least, most)
}

/// Reads the line of a word and a number from `least` to `most`. [`BadLine`] comes if the next line is another or none
/// is left, and leaves it unread.
#[tactic(auto, using(crate::proofs::Cursors::line_missing))]
pub fn count_line(
    lines: &mut Lines<'_>,
    name: &[u8],
    least: u128,
    most: u128,
) -> Result<u128, BadLine>
    ensures { Reads (λ n. n) result lines.new ((count_line name.now least most).read lines.old) }
{
    let mut fields = lines.fields()?;
    let count = count_of(&mut fields, name, least, most);
    lines.row(count, &fields)
}

/// Reads the line of one word. [`BadLine`] comes if the next line is another or none is left, and leaves it unread.
#[tactic(auto, using(crate::proofs::Cursors::line_missing))]
pub fn word_line(lines: &mut Lines<'_>, name: &[u8]) -> Result<(), BadLine>
    ensures { Reads (λ _. tt) result lines.new ((word_line name.now).read lines.old) }
{
    let mut fields = lines.fields()?;
    let found = fields.word(name);
    lines.row(found, &fields)
}

/// Reads the line of one number up to `most`. [`BadLine`] comes if the next line is another or none is left, and leaves
/// it unread.
#[tactic(auto, using(crate::proofs::Cursors::line_missing))]
pub fn number_line(lines: &mut Lines<'_>, most: u128) -> Result<u128, BadLine>
    ensures { Reads (λ n. n) result lines.new ((number_line most).read lines.old) }
{
    let mut fields = lines.fields()?;
    let number = fields.number(0, most);
    lines.row(number, &fields)
}

/// Writes the line of one number. After want of memory a part of it may be written.
#[tactic(auto, using(crate::proofs::Loops::one_text))]
pub fn put_number_line(out: &mut Vec<u8>, number: u128) -> Result<(), NoMemory>
    ensures { (most : ℕ) → Puts result out.old.items out.new.items (file_text (number_line most) number) }
{
    put_number(out, number)?;
    out.push(b'\n')?;
    Ok(())
}

/// Writes the line of a word and a number. After want of memory a part of it may be written.
pub fn put_count_line(out: &mut Vec<u8>, name: &[u8], number: u128) -> Result<(), NoMemory>
    ensures { (least most : ℕ)
        → Puts result out.old.items out.new.items (file_text (count_line name.now least most) number) }
{
    out.extend_from_slice(name)?;
    out.push(b',')?;
    put_number(out, number)?;
    out.push(b'\n')?;
    Ok(())
}

//! The values that `clap` found for the arguments of a command.
ghost use Rattle.std.specs.Prelude.{◌≡◌, option_map, Ok};
ghost use Rattle.clap.specs.Words.{first_of, found_of, rows_of};
ghost use Rattle.answers.specs.Answers.{Gives};
ghost use Rattle.spares_words.specs.Order.{names_of, text_of};

use crate::WordsFault;
use answers::Stop;
use clap::ArgMatches;
use spares_io::Text;
use std::alloc::Global;

/// The value of an argument that may be left out.
pub(crate) fn value_of<'a>(matches: &ArgMatches<'a>, id: &str) -> Option<&'a str>
    ensures { option_map (λ s. s.now) result ≡ first_of id.now (rows_of (found_of matches.now)) }
{
    matches.get_str(id)
}

/// The value of a required argument.
pub(crate) fn text_of<'a>(matches: &ArgMatches<'a>, id: &str) -> &'a str
    ensures { result.now ≡ text_of (rows_of (found_of matches.now)) id.now }
{
    match value_of(matches, id) {
        Some(text) => text,
        None => "",
    }
}

/// A copy of a text.
fn copy_of(alloc: Global, text: &str) -> Result<Text, Stop<WordsFault>>
    ensures { Gives (Ok text.now) result }
{
    match Text::from_str(alloc, text) {
        Ok(text) => Ok(text),
        Err(_) => Err(Stop::NoMemory),
    }
}

/// A copy of the value of a required argument.
pub(crate) fn copied(
    alloc: Global,
    matches: &ArgMatches<'_>,
    id: &str,
) -> Result<Text, Stop<WordsFault>>
    ensures { Gives (Ok (text_of (rows_of (found_of matches.now)) id.now)) result }
{
    copy_of(alloc, text_of(matches, id))
}

/// A copy of the value of an argument that may be left out.
pub(crate) fn copied_if_given(
    alloc: Global,
    matches: &ArgMatches<'_>,
    id: &str,
) -> Result<Option<Text>, Stop<WordsFault>>
    ensures { Gives (Ok (first_of id.now (rows_of (found_of matches.now)))) result }
{
    match value_of(matches, id) {
        Some(text) => Ok(Some(copy_of(alloc, text)?)),
        None => Ok(None),
    }
}

/// The names of the tables of a case.
#[derive(Drop)]
pub(crate) struct Names {
    pub(crate) sites: Text,
    pub(crate) parts: Text,
    pub(crate) rates: Text,
}

/// Copies of the names of the tables of a case.
pub(crate) fn names_of(alloc: Global, matches: &ArgMatches<'_>) -> Result<Names, Stop<WordsFault>>
    ensures { Gives (Ok (names_of (rows_of (found_of matches.now)))) result }
{
    let sites = copied(alloc, matches, "sites")?;
    let parts = copied(alloc, matches, "parts")?;
    let rates = copied(alloc, matches, "rates")?;
    Ok(Names {
        sites,
        parts,
        rates,
    })
}

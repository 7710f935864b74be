//! The arguments that the system gives the program.
ghost use Rattle.std.specs.Prelude.{IfErr};
ghost use Rattle.spares_words.specs.Arguments.{NoMemoryOrShape};

use crate::WordsFault;
use answers::{NoMemory, Stop};
use spares_io::Text;
use std::alloc::Global;
use std::io::ErrorKind;
use std::{env, io};

/// The words after the program's name.
fn words_of(alloc: Global, arguments: &[String]) -> Result<Vec<Text>, NoMemory> {
    let mut words = Vec::new(alloc);
    for argument in arguments.iter().skip(1) {
        words.push(Text::from_str(alloc, argument.as_str())?)?;
    }
    Ok(words)
}

/// Why there are no arguments: no memory for them, or one of them isn't text.
fn stop_of(error: &io::Error) -> Stop<WordsFault>
    ensures { NoMemoryOrShape result }
{
    if error.kind() == ErrorKind::OutOfMemory {
        Stop::NoMemory
    } else {
        Stop::Fault(WordsFault::Shape)
    }
}

/// The words of the command line, after the program's name. The fault is `Shape` if an argument isn't text.
pub fn words(rt: &HostRuntime) -> Result<Vec<Text>, Stop<WordsFault>>
    ensures { IfErr result NoMemoryOrShape }
{
    let arguments = match env::args(rt) {
        Ok(arguments) => arguments.collect::<Vec<String>>(rt.alloc())?,
        Err(error) => return Err(stop_of(&error)),
    };
    Ok(words_of(rt.alloc(), arguments.as_slice())?)
}

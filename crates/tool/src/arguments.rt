// The program's arguments, and what each command is handed.
ghost use Rattle.io.specs.Counts.{IsPrefixLen};

use crate::failure::Failure;
use crate::files::file_space;
use crate::{certify, check, help, list, play, size, trace};
use options::Command;
use options::by_number::{Usage, bad_value, lacks, take_word};
use options::places::{PLACES, Place};
use options::words::command_of;
use reports::Status;
use std::env::FillError;
use std::rt::Env;

// The longest word is a byte shorter, as the longest path is.
pub const WORD: usize = 4096;

// Puts an argument's bytes at the start of a word; how many they are, 0 where it is missing or too long. No Option: an
// empty word can be given too, and, as it names no command, value or file, both are refused as what is wrong is.
pub fn word_at(rt: &HostRuntime, argument: usize, word: &mut [u8]) -> usize
    ensures { IsPrefixLen result word.new }
{
    match rt.arg(argument, word) {
        Ok(length) => length,
        Err(_) => 0,
    }
}

// How many arguments there are, the program's name among them.
pub fn argument_count(rt: &HostRuntime) -> usize {
    let mut word = [0u8; 1];
    for at in 0..usize::MAX {
        if let Err(FillError::NotPresent) = rt.arg(at, &mut word) {
            return at;
        }
    }
    usize::MAX
}

// What an argument is read as.
pub fn read_as<T, F: FnOnce(&[u8]) -> Option<T>>(
    rt: &HostRuntime,
    argument: usize,
    parse: F,
) -> Option<T>
    requires { F.IsAlwaysCallable parse }
{
    let mut word = [0u8; WORD];
    let length = word_at(rt, argument, &mut word);
    parse(&word[..length])
}

// Whether an argument gives a place.
pub fn is_given(places: &[usize; PLACES], place: Place) -> bool {
    places[place.number()] != 0
}

// The argument that gives a place, which is needed.
pub fn argument_of(places: &[usize; PLACES], place: Place) -> Result<usize, Usage> {
    match places[place.number()] {
        0 => Err(Usage::Missing(place.number())),
        argument => Ok(argument),
    }
}

// The value that an argument gives an option, which has some value only.
pub fn value_of<T: Drop, F: FnOnce(&[u8]) -> Option<T>>(
    rt: &HostRuntime,
    places: &[usize; PLACES],
    place: Place,
    parse: F,
) -> Result<T, Usage>
    requires { F.IsAlwaysCallable parse }
{
    let argument = argument_of(places, place)?;
    read_as(rt, argument, parse).ok_or(bad_value(places, place.number()))
}

// Reads one argument into its place.
pub fn read_argument(
    rt: &HostRuntime,
    places: &mut [usize; PLACES],
    command: Command,
    argument: usize,
) -> Result<(), Usage> {
    let mut word = [0u8; WORD];
    match rt.arg(argument, &mut word) {
        Ok(length) => take_word(places, Some(command), &word[..length], argument),
        Err(_) => Err(Usage::TooLong(argument)),
    }
}

// The words after the command's name.
fn read_words(
    rt: &HostRuntime,
    places: &mut [usize; PLACES],
    command: Command,
    count: usize,
) -> Result<(), Usage> {
    for argument in 2..count {
        read_argument(rt, places, command, argument)?;
    }
    lacks(places, Some(command))
}

// No word stands after `--help` or `--version`.
fn read_none(count: usize) -> Result<(), Usage> {
    if 2 < count {
        return Err(Usage::UnknownOption(2));
    }
    Ok(())
}

// Reads all arguments into their places, or finds what is wrong with them. The first names the command.
pub fn read_arguments(rt: &HostRuntime, places: &mut [usize; PLACES]) -> Result<Command, Usage> {
    let count = argument_count(rt);
    if count < 2 {
        return Err(Usage::NoCommand);
    }
    let Some(command) = read_as(rt, 1, |word| command_of(word)) else {
        return Err(Usage::UnknownCommand);
    };
    match command {
        Command::Help | Command::Version => read_none(count)?,
        _ => read_words(rt, places, command, count)?,
    }
    Ok(command)
}

// Runs the command, whose arguments stand in their places. There is room for one file, which is lent to whatever reads
// one, so that the stack has it once.
pub fn run(
    rt: &HostRuntime,
    command: Command,
    places: &[usize; PLACES],
) -> Result<Status, Failure> {
    if is_given(places, Place::Help) {
        return Ok(help::put_help(rt, command));
    }
    let mut file = file_space();
    match command {
        Command::Check => check::run(rt, places, &mut file),
        Command::Certify => certify::run(rt, places, &mut file),
        Command::List => list::run(rt, places, &mut file),
        Command::Trace => trace::run(rt, places, &mut file),
        Command::Size => size::run(rt, places, &mut file),
        Command::Play => play::run(rt, places, &mut file),
        Command::Help => Ok(help::put_help(rt, command)),
        Command::Version => Ok(help::put_version(rt)),
    }
}

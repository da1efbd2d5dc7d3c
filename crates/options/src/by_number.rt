// The command line, word by word: which argument gives what, or what is wrong with it. Places go by number, in an array,
// as `st62` keeps them; `command_line` is the same by name.
ghost use Rattle.std.specs.Prelude.{◌≡◌, ◌<◌, [], ◌∷◌};
ghost use Rattle.options.specs.Places.{image, number_of};
ghost use Rattle.options.specs.ByNumber.{after_word, bad_value_of, has_option, is_open, lack_of, missing_of};
ghost use Rattle.options.specs.ByNumber.{more_files, more_needed, noted, noted_file, noted_option, step};

use crate::Command;
use crate::places::{AWAITED, PLACES, Place};
use crate::words::{Word, word_of};

// What is wrong with a command line: by the number of an argument, or by the place of an option.
#[derive(Clone, Copy, Debug, PartialEq, Eq)]
pub enum Usage {
    NoCommand,
    UnknownCommand,
    // By the argument.
    UnknownOption(usize),
    TooManyFiles(usize),
    TooLong(usize),
    // By the place.
    Unfit(usize),
    Twice(usize),
    NoValue(usize),
    Missing(usize),
    // By both.
    BadValue { place: usize, argument: usize },
}

// Whether a command has an option that is named.
#[tactic(auto, unfolding(crate::specs::ByNumber::has_option))]
fn has(command: Option<Command>, place: Place) -> bool
    ensures { result ≡ has_option command (number_of place) }
{
    match place {
        Place::Rom | Place::Fill | Place::Raw | Place::Quiet | Place::Help => true,
        Place::Wired => {
            matches!(
                command,
                Some(Command::Check | Command::Certify | Command::List)
            )
        }
        Place::Marks => {
            matches!(
                command,
                Some(Command::Check | Command::List | Command::Size)
            )
        }
        Place::Output => matches!(command, Some(Command::Certify)),
        Place::Steps | Place::Request => matches!(command, Some(Command::Trace)),
        Place::Count => matches!(command, Some(Command::Size)),
        Place::Image | Place::Record => false,
    }
}

// Whether a command has an option. None, a command without a name, has only those that every command has.
pub fn takes(command: Option<Command>, place: usize) -> bool
    ensures { result ≡ has_option command place }
{
    match Place::of(place) {
        Some(named) => has(command, named),
        None => false,
    }
}

// Whether no argument gives a place.
fn is_open(places: &[usize; PLACES], place: Place) -> bool
    ensures { result ≡ is_open places.now (number_of place) }
{
    places[place.number()] == 0
}

// Notes that an argument gives a place. Only requests may be given more than once.
#[tactic(auto, unfolding(crate::specs::ByNumber::noted))]
fn note(places: &mut [usize; PLACES], place: usize, argument: usize) -> Result<(), Usage>
    ensures { step result places.new ≡ noted places.old place argument }
{
    if PLACES <= place {
        return Err(Usage::UnknownOption(argument));
    }
    if place != Place::Request.number() && places[place] != 0 {
        return Err(Usage::Twice(place));
    }
    places[place] = argument;
    Ok(())
}

// Notes a file's name: the image, then, to play, the record.
fn note_file(
    places: &mut [usize; PLACES],
    command: Option<Command>,
    argument: usize,
) -> Result<(), Usage>
    ensures { step result places.new ≡ noted_file places.old (image ∷ more_files command) argument }
{
    let file = if is_open(places, Place::Image) {
        Place::Image
    } else if command == Some(Command::Play) && is_open(places, Place::Record) {
        Place::Record
    } else {
        return Err(Usage::TooManyFiles(argument));
    };
    places[file.number()] = argument;
    Ok(())
}

// Notes an option, of which the command must know; one with a value awaits it.
#[tactic(auto, unfolding(crate::specs::ByNumber::noted_option))]
fn note_option(
    places: &mut [usize; PLACES],
    command: Option<Command>,
    place: Place,
    argument: usize,
    has_value: bool,
) -> Result<(), Usage>
    ensures { step result places.new
        ≡ noted_option places.old command (number_of place) argument has_value }
{
    if !has(command, place) {
        return Err(Usage::Unfit(place.number()));
    }
    if has_value {
        places[AWAITED] = place.number();
        return Ok(());
    }
    note(places, place.number(), argument)
}

// Takes the next word of the command line.
#[tactic(auto, unfolding(crate::specs::ByNumber::after_word))]
pub fn take_word(
    places: &mut [usize; PLACES],
    command: Option<Command>,
    word: &[u8],
    argument: usize,
) -> Result<(), Usage>
    ensures { step result places.new
        ≡ after_word places.old command word.now argument }
{
    let awaited = places[AWAITED];
    if awaited != 0 {
        places[AWAITED] = 0;
        return note(places, awaited, argument);
    }
    match word_of(word) {
        Some(Word::Flag(place)) => note_option(places, command, place, argument, false),
        Some(Word::Valued(place)) => note_option(places, command, place, argument, true),
        Some(Word::File) => note_file(places, command, argument),
        None => Err(Usage::UnknownOption(argument)),
    }
}

// Whether a place that is needed is not given.
fn missing(places: &[usize; PLACES], place: Place) -> Result<(), Usage>
    ensures { result ≡ missing_of places.now (number_of place ∷ []) }
{
    if is_open(places, place) {
        Err(Usage::Missing(place.number()))
    } else {
        Ok(())
    }
}

// What a command line lacks of what its command needs. The sources that are wired are never assumed.
fn needs(places: &[usize; PLACES], command: Option<Command>) -> Result<(), Usage>
    ensures { result ≡ missing_of places.now (image ∷ more_needed command) }
{
    missing(places, Place::Image)?;
    match command {
        Some(Command::Check) => missing(places, Place::Wired),
        Some(Command::Certify) => {
            missing(places, Place::Wired)?;
            missing(places, Place::Output)
        }
        Some(Command::Trace) => missing(places, Place::Steps),
        Some(Command::Size) => missing(places, Place::Count),
        Some(Command::Play) => missing(places, Place::Record),
        Some(Command::List | Command::Help | Command::Version) | None => Ok(()),
    }
}

// What the whole command line lacks, once all words are taken.
#[tactic(auto, unfolding(crate::specs::ByNumber::lack_of))]
pub fn lacks(places: &[usize; PLACES], command: Option<Command>) -> Result<(), Usage>
    ensures { result ≡ lack_of places.now command }
{
    if !is_open(places, Place::Help) {
        return Ok(());
    }
    let awaited = places[AWAITED];
    if awaited != 0 {
        return Err(Usage::NoValue(awaited));
    }
    needs(places, command)
}

// That the value of an option is none that it can have.
pub fn bad_value(places: &[usize; PLACES], place: usize) -> Usage
    ensures { result ≡ bad_value_of places.now place }
{
    if PLACES <= place {
        return Usage::UnknownOption(place);
    }
    Usage::BadValue {
        place,
        argument: places[place],
    }
}

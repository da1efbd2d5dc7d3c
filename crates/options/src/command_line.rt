// The command line, word by word: which argument gives what, or what is wrong with it. Places go by name, in a struct
// where an argument numbered 0 is given too; `by_number` is the same by number.
ghost use Rattle.std.specs.Prelude.{◌≡◌, [], ◌∷◌};
ghost use Rattle.options.specs.declared.places.Place.TheVariants.{Image};
ghost use Rattle.options.specs.CommandLine.{after_word, bad_value_of, has_option, lack_of, missing_of};
ghost use Rattle.options.specs.CommandLine.{more_files, more_needed, noted, noted_file, noted_option, step};

use crate::places::{Place, Places};
use crate::words::{Word, word_of};
use crate::{Command, by_number};

// What is wrong with a command line: by the number of an argument, or by the place of an option.
#[derive(Clone, Copy, Debug, PartialEq, Eq)]
pub enum Usage {
    NoCommand,
    UnknownCommand,
    // By the argument.
    UnknownOption(usize),
    TooManyFiles(usize),
    TooLong(usize),
    // By the place.
    Unfit(Place),
    Twice(Place),
    NoValue(Place),
    Missing(Place),
    // By both.
    BadValue {
        place: Place,
        argument: Option<usize>,
    },
}

// Whether a command has an option.
#[tactic(auto, unfolding(crate::specs::CommandLine::has_option, crate::specs::ByNumber::has_option))]
pub fn takes(command: Command, place: Place) -> bool
    ensures { result ≡ has_option command place }
{
    by_number::takes(Some(command), place.number())
}

// Notes that an argument gives a place. Only requests may be given more than once.
#[tactic(auto, unfolding(crate::specs::CommandLine::noted))]
fn note(places: &mut Places, place: Place, argument: usize) -> Result<(), Usage>
    ensures { step result places.new ≡ noted places.old place argument }
{
    if place != Place::Request && places.has(place) {
        return Err(Usage::Twice(place));
    }
    places.give(place, argument);
    Ok(())
}

// Notes a file's name: the image, then, to play, the record.
fn note_file(places: &mut Places, command: Command, argument: usize) -> Result<(), Usage>
    ensures { step result places.new ≡ noted_file places.old (Image ∷ more_files command) argument }
{
    let file = if !places.has(Place::Image) {
        Place::Image
    } else if command == Command::Play && !places.has(Place::Record) {
        Place::Record
    } else {
        return Err(Usage::TooManyFiles(argument));
    };
    places.give(file, argument);
    Ok(())
}

// Notes an option, of which the command must know; one with a value awaits it.
#[tactic(auto, unfolding(crate::specs::CommandLine::noted_option))]
fn note_option(
    places: &mut Places,
    command: Command,
    place: Place,
    argument: usize,
    has_value: bool,
) -> Result<(), Usage>
    ensures { step result places.new
        ≡ noted_option places.old command place argument has_value }
{
    if !takes(command, place) {
        return Err(Usage::Unfit(place));
    }
    if has_value {
        places.awaited = Some(place);
        return Ok(());
    }
    note(places, place, argument)
}

// Takes the next word of the command line.
#[tactic(auto, unfolding(crate::specs::CommandLine::after_word))]
pub fn take_word(
    places: &mut Places,
    command: Command,
    word: &[u8],
    argument: usize,
) -> Result<(), Usage>
    ensures { step result places.new
        ≡ after_word places.old command word.now argument }
{
    if let Some(awaited) = places.awaited {
        places.awaited = None;
        return note(places, awaited, argument);
    }
    match word_of(word) {
        Some(Word::Flag(place)) => note_option(places, command, place, argument, false),
        Some(Word::Valued(place)) => note_option(places, command, place, argument, true),
        Some(Word::File) => note_file(places, command, argument),
        None => Err(Usage::UnknownOption(argument)),
    }
}

// Whether a place that is needed is not given.
fn missing(places: &Places, place: Place) -> Result<(), Usage>
    ensures { result ≡ missing_of places.now (place ∷ []) }
{
    if places.has(place) {
        Ok(())
    } else {
        Err(Usage::Missing(place))
    }
}

// What a command line lacks of what its command needs. The sources that are wired are never assumed.
fn needs(places: &Places, command: Command) -> Result<(), Usage>
    ensures { result ≡ missing_of places.now (Image ∷ more_needed command) }
{
    missing(places, Place::Image)?;
    match command {
        Command::Check => missing(places, Place::Wired),
        Command::Certify => {
            missing(places, Place::Wired)?;
            missing(places, Place::Output)
        }
        Command::Trace => missing(places, Place::Steps),
        Command::Size => missing(places, Place::Count),
        Command::Play => missing(places, Place::Record),
        Command::List | Command::Help | Command::Version => Ok(()),
    }
}

// What the whole command line lacks, once all words are taken.
#[tactic(auto, unfolding(crate::specs::CommandLine::lack_of))]
pub fn lacks(places: &Places, command: Command) -> Result<(), Usage>
    ensures { result ≡ lack_of places.now command }
{
    if places.has(Place::Help) {
        return Ok(());
    }
    if let Some(awaited) = places.awaited {
        return Err(Usage::NoValue(awaited));
    }
    needs(places, command)
}

// That the value of an option is none that it can have.
pub fn bad_value(places: &Places, place: Place) -> Usage
    ensures { result ≡ bad_value_of places.now place }
{
    Usage::BadValue {
        place,
        argument: places.argument(place),
    }
}

#[cfg(test)]
mod tests {
    use super::*;

    // The words after `st62 check`, the first of them numbered 0; with `--help` nothing is lacking.
    #[test]
    fn line_of_check_is_taken(rt: HostRuntime) {
        let mut places = Places::new();
        let image = take_word(&mut places, Command::Check, b"a.hex", 0);
        assert_eq!(rt; image, Ok(()));
        let lack = lacks(&places, Command::Check);
        assert_eq!(rt; lack, Err(Usage::Missing(Place::Wired)));
        let option = take_word(&mut places, Command::Check, b"--wired", 1);
        assert_eq!(rt; option, Ok(()));
        let lack = lacks(&places, Command::Check);
        assert_eq!(rt; lack, Err(Usage::NoValue(Place::Wired)));
        let value = take_word(&mut places, Command::Check, b"none", 2);
        assert_eq!(rt; value, Ok(()));
        let lack = lacks(&places, Command::Check);
        assert_eq!(rt; lack, Ok(()));
        let mut places = Places::new();
        let help = take_word(&mut places, Command::Check, b"--help", 0);
        assert_eq!(rt; help, Ok(()));
        let lack = lacks(&places, Command::Check);
        assert_eq!(rt; lack, Ok(()));
    }

    #[test]
    fn faults_are_told_by_place(rt: HostRuntime) {
        let mut places = Places::new();
        assert!(rt; takes(Command::Size, Place::Count));
        assert!(rt; !takes(Command::Check, Place::Count));
        let unfit = take_word(&mut places, Command::Check, b"--count", 2);
        assert_eq!(rt; unfit, Err(Usage::Unfit(Place::Count)));
        let given = take_word(&mut places, Command::List, b"--quiet", 0);
        assert_eq!(rt; given, Ok(()));
        let twice = take_word(&mut places, Command::List, b"--quiet", 2);
        assert_eq!(rt; twice, Err(Usage::Twice(Place::Quiet)));
        let bad = bad_value(&places, Place::Quiet);
        let told = Usage::BadValue {
            place: Place::Quiet,
            argument: Some(0),
        };
        assert_eq!(rt; bad, told);
    }
}

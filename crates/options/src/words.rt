// The words of a command line: commands and options by their names.
ghost use Rattle.std.specs.Prelude.{◌≡◌};
ghost use Rattle.options.specs.Words.{command_named, flag_named, valued_named, word_for};

use crate::Command;
use crate::places::Place;

// What a word is: an option without or with a value, or a file's name.
#[derive(Clone, Copy, Debug, PartialEq, Eq)]
pub enum Word {
    Flag(Place),
    Valued(Place),
    File,
}

// The command of a name.
// By `==`, here and below: the proof of a match on eight byte strings did not close.
#[tactic(auto, unfolding(crate::specs::Words::command_named))]
pub fn command_of(word: &[u8]) -> Option<Command>
    ensures { result ≡ command_named word.now }
{
    if word == b"check".as_slice() {
        Some(Command::Check)
    } else if word == b"certify".as_slice() {
        Some(Command::Certify)
    } else if word == b"list".as_slice() {
        Some(Command::List)
    } else if word == b"trace".as_slice() {
        Some(Command::Trace)
    } else if word == b"size".as_slice() {
        Some(Command::Size)
    } else if word == b"play".as_slice() {
        Some(Command::Play)
    } else if word == b"--help".as_slice() {
        Some(Command::Help)
    } else if word == b"--version".as_slice() {
        Some(Command::Version)
    } else {
        None
    }
}

// The place of an option that has a value.
#[tactic(auto, unfolding(crate::specs::Words::valued_named))]
fn valued(word: &[u8]) -> Option<Place>
    ensures { result ≡ valued_named word.now }
{
    if word == b"--wired".as_slice() {
        Some(Place::Wired)
    } else if word == b"--marks".as_slice() {
        Some(Place::Marks)
    } else if word == b"-o".as_slice() {
        Some(Place::Output)
    } else if word == b"--steps".as_slice() {
        Some(Place::Steps)
    } else if word == b"--request".as_slice() {
        Some(Place::Request)
    } else if word == b"--count".as_slice() {
        Some(Place::Count)
    } else if word == b"--rom".as_slice() {
        Some(Place::Rom)
    } else if word == b"--fill".as_slice() {
        Some(Place::Fill)
    } else {
        None
    }
}

// The place of an option without a value.
#[tactic(auto, unfolding(crate::specs::Words::flag_named))]
fn flag(word: &[u8]) -> Option<Place>
    ensures { result ≡ flag_named word.now }
{
    if word == b"--raw".as_slice() {
        Some(Place::Raw)
    } else if word == b"--quiet".as_slice() {
        Some(Place::Quiet)
    } else if word == b"--help".as_slice() {
        Some(Place::Help)
    } else {
        None
    }
}

// What a word after the command's name is; none for one that looks like an option and is none. A name that begins with
// a hyphen is no file's: write ./ before it.
#[tactic(auto, unfolding(crate::specs::Words::word_for))]
pub fn word_of(word: &[u8]) -> Option<Word>
    ensures { result ≡ word_for word.now }
{
    if let Some(place) = valued(word) {
        return Some(Word::Valued(place));
    }
    if let Some(place) = flag(word) {
        return Some(Word::Flag(place));
    }
    match word {
        [] | [b'-', ..] => None,
        _ => Some(Word::File),
    }
}

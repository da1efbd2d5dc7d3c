// Help, version, and what is wrong with a command line.
use crate::arguments::{WORD, word_at};
use options::Command;
use options::by_number::Usage;
use options::places::Place;
use reports::Status;
use reports::output::{Stream, Written, finish, put_error, put_text, put_to};

// Help on `check`.
fn put_check(rt: &HostRuntime) -> Written {
    put_text(
        rt,
        b"usage: st62 check --wired SOURCES [--marks FILE] IMAGE\n",
    )?;
    put_text(
        rt,
        b"Says whether the program ever needs a seventh level, and how many it uses at most.\n",
    )?;
    put_text(
        rt,
        b"Without --marks the least certificate is made, and then checked.\n",
    )?;
    put_text(
        rt,
        b"  --wired SOURCES  every source that the program can enable, and nmi if its pin\n",
    )?;
    put_text(rt, b"                   can move; never assumed\n")?;
    put_text(
        rt,
        b"  --marks FILE     a certificate, Intel HEX or raw: a mark for each ROM address\n",
    )
}

// Help on `certify`.
fn put_certify(rt: &HostRuntime) -> Written {
    put_text(rt, b"usage: st62 certify --wired SOURCES IMAGE -o FILE\n")?;
    put_text(
        rt,
        b"Writes the least certificate that is accepted, raw, or says why there is none.\n",
    )?;
    put_text(rt, b"  --wired SOURCES  as for check\n")?;
    put_text(
        rt,
        b"  -o FILE          a new file, made only where there is a certificate\n",
    )
}

// Help on `list`.
fn put_list(rt: &HostRuntime) -> Written {
    put_text(
        rt,
        b"usage: st62 list [--wired SOURCES | --marks FILE] IMAGE\n",
    )?;
    put_text(
        rt,
        b"Lists what is marked: address, bytes, instruction, mark, kind, need; what lies\nbelow 800h page by page, as 2:3F0, where there are several.\n",
    )?;
    put_text(
        rt,
        b"Without --marks the marks are made for the SOURCES, none if not given; with\nboth, --wired says nothing.\n",
    )
}

// Help on `trace`.
fn put_trace(rt: &HostRuntime) -> Written {
    put_text(
        rt,
        b"usage: st62 trace IMAGE --steps N [--request STEP=SOURCE]...\n",
    )?;
    put_text(
        rt,
        b"Runs a fresh machine for N steps (at most 65535), one line for each.\n",
    )?;
    put_text(
        rt,
        b"  --request STEP=SOURCE  the source asks at that step, counted from 0\n",
    )
}

// Help on `size`.
fn put_size(rt: &HostRuntime) -> Written {
    put_text(rt, b"usage: st62 size IMAGE [--marks FILE] --count N\n")?;
    put_text(
        rt,
        b"The width in millimetres that the gauge would show for the slide count N\n",
    )?;
    put_text(
        rt,
        b"(0 to 255), and the steps. Without --marks the certificate is made. Images of 2K\nand 4K only.\n",
    )
}

// Help on `play`.
fn put_play(rt: &HostRuntime) -> Written {
    put_text(rt, b"usage: st62 play IMAGE RECORD\n")?;
    put_text(
        rt,
        b"Plays a session's record on a fresh machine, and shows the last machine, or the\n",
    )?;
    put_text(rt, b"entry that ended the playing, with its reason.\n")
}

// All commands.
fn put_commands(rt: &HostRuntime, stream: Stream) -> Written {
    put_to(
        rt,
        stream,
        b"usage: st62 check   --wired SOURCES [--marks FILE] IMAGE\n",
    )?;
    put_to(
        rt,
        stream,
        b"       st62 certify --wired SOURCES IMAGE -o FILE\n",
    )?;
    put_to(
        rt,
        stream,
        b"       st62 list    [--wired SOURCES | --marks FILE] IMAGE\n",
    )?;
    put_to(
        rt,
        stream,
        b"       st62 trace   IMAGE --steps N [--request STEP=SOURCE]...\n",
    )?;
    put_to(
        rt,
        stream,
        b"       st62 size    IMAGE [--marks FILE] --count N\n",
    )?;
    put_to(rt, stream, b"       st62 play    IMAGE RECORD\n")?;
    put_to(
        rt,
        stream,
        b"       st62 --help | --version | COMMAND --help\n",
    )
}

// What all commands have in common.
fn put_common(rt: &HostRuntime) -> Written {
    put_text(
        rt,
        b"IMAGE is Intel HEX (it begins with a colon), 2K or 4K; or raw bytes, 2K, 4K, or\n6K to 20K: pages of 2K, then the fixed half.\n",
    )?;
    put_text(
        rt,
        b"SOURCES are names with commas between them, of nmi, 1, 2, 3, 4; or none.\n",
    )?;
    put_text(
        rt,
        b"  --rom 2K|4K   the size of a HEX file's image; else by the lowest address named\n",
    )?;
    put_text(
        rt,
        b"  --fill HH     the byte where a HEX file names none, 00 if not given\n",
    )?;
    put_text(
        rt,
        b"  --raw         IMAGE is raw, even if it begins with a colon\n",
    )?;
    put_text(
        rt,
        b"  --quiet       only the answer: no reason, no line of the image\n",
    )?;
    put_text(
        rt,
        b"Exit status: 0 accepted or done, 1 refused or stopped, 2 usage, input or output.\n",
    )
}

// Help on a command, or on all.
pub fn put_help(rt: &HostRuntime, command: Command) -> Status {
    finish(Status::Done, put_help_text(rt, command))
}

fn put_help_text(rt: &HostRuntime, command: Command) -> Written {
    match command {
        Command::Check => put_check(rt)?,
        Command::Certify => put_certify(rt)?,
        Command::List => put_list(rt)?,
        Command::Trace => put_trace(rt)?,
        Command::Size => put_size(rt)?,
        Command::Play => put_play(rt)?,
        Command::Help | Command::Version => put_commands(rt, Stream::Output)?,
    }
    put_common(rt)
}

// The version, the toolchain, and what is proved and what is not.
fn put_about(rt: &HostRuntime) -> Written {
    put_text(rt, b"st62 0.1\n")?;
    put_text(rt, b"built with rattle-kit-13f\n")?;
    put_text(
        rt,
        b"proved: Intel HEX and listing as defined; machine, check, maker, gauge, records by the papers; every function returns\n",
    )?;
    put_text(
        rt,
        b"not proved: wording, files, terminals, the C library's calls; the toolchain's prover and compiler are trusted\n",
    )
}

pub fn put_version(rt: &HostRuntime) -> Status {
    finish(Status::Done, put_about(rt))
}

// An argument that is wrong: `st62: WORD: reason`.
fn put_argument(rt: &HostRuntime, argument: usize, reason: &[u8]) {
    let mut word = [0u8; WORD];
    let length = word_at(rt, argument, &mut word);
    put_error(rt, b"st62: ");
    put_error(rt, &word[..length]);
    put_error(rt, reason);
}

// The name of an option, by its place.
fn put_name(rt: &HostRuntime, place: usize) {
    match Place::of(place) {
        Some(Place::Wired) => put_error(rt, b"--wired"),
        Some(Place::Marks) => put_error(rt, b"--marks"),
        Some(Place::Output) => put_error(rt, b"-o"),
        Some(Place::Steps) => put_error(rt, b"--steps"),
        Some(Place::Request) => put_error(rt, b"--request"),
        Some(Place::Count) => put_error(rt, b"--count"),
        Some(Place::Rom) => put_error(rt, b"--rom"),
        Some(Place::Fill) => put_error(rt, b"--fill"),
        Some(Place::Raw) => put_error(rt, b"--raw"),
        Some(Place::Quiet) => put_error(rt, b"--quiet"),
        Some(Place::Help) => put_error(rt, b"--help"),
        _ => put_error(rt, b"a file"),
    }
}

// What is wrong with an option: `st62: OPTION: reason`.
fn put_option(rt: &HostRuntime, place: usize, reason: &[u8]) {
    put_error(rt, b"st62: ");
    put_name(rt, place);
    put_error(rt, reason);
}

// What an option's value can be.
fn put_values(rt: &HostRuntime, place: usize) {
    match Place::of(place) {
        Some(Place::Wired) => put_error(
            rt,
            b": sources are nmi, 1, 2, 3, 4 with commas between them, or none\n",
        ),
        Some(Place::Steps) => put_error(rt, b": 0 to 65535\n"),
        Some(Place::Request) => put_error(rt, b": STEP=SOURCE, a step below --steps\n"),
        Some(Place::Count) => put_error(rt, b": 0 to 255\n"),
        Some(Place::Rom) => put_error(rt, b": 2K or 4K\n"),
        Some(Place::Fill) => put_error(rt, b": two hexadecimal digits\n"),
        _ => put_error(rt, b": no such value\n"),
    }
}

// An option's value that it cannot have: `st62: OPTION VALUE: what it can be`.
fn put_bad_value(rt: &HostRuntime, place: usize, argument: usize) {
    let mut word = [0u8; WORD];
    let length = word_at(rt, argument, &mut word);
    put_option(rt, place, b" ");
    put_error(rt, &word[..length]);
    put_values(rt, place);
}

// What is missing.
fn put_missing(rt: &HostRuntime, place: usize) {
    match Place::of(place) {
        Some(Place::Image) => put_error(rt, b"st62: no image\n"),
        Some(Place::Record) => put_error(rt, b"st62: no record\n"),
        Some(Place::Wired) => put_error(
            rt,
            b"st62: --wired is missing: the wired sources are never assumed\n",
        ),
        Some(Place::Output) => put_error(rt, b"st62: -o is missing\n"),
        Some(Place::Steps) => put_error(rt, b"st62: --steps is missing\n"),
        Some(Place::Count) => put_error(rt, b"st62: --count is missing\n"),
        _ => put_error(rt, b"st62: an option is missing\n"),
    }
}

fn put_wrong(rt: &HostRuntime, usage: Usage) {
    match usage {
        Usage::NoCommand => put_error(rt, b"st62: no command\n"),
        Usage::UnknownCommand => put_argument(rt, 1, b": unknown command\n"),
        Usage::UnknownOption(argument) => put_argument(rt, argument, b": unknown option\n"),
        Usage::TooManyFiles(argument) => put_argument(rt, argument, b": one file too many\n"),
        Usage::TooLong(_) => put_error(rt, b"st62: an argument is too long\n"),
        Usage::Unfit(place) => put_option(rt, place, b": not an option of this command\n"),
        Usage::Twice(place) => put_option(rt, place, b": given twice\n"),
        Usage::NoValue(place) => put_option(rt, place, b": its value is missing\n"),
        Usage::BadValue { place, argument } => put_bad_value(rt, place, argument),
        Usage::Missing(place) => put_missing(rt, place),
    }
}

// Says what is wrong with a command line, and how it is used.
pub fn put_usage(rt: &HostRuntime, usage: Usage) -> Status {
    put_wrong(rt, usage);
    let _ = put_commands(rt, Stream::Error);
    Status::Failed
}

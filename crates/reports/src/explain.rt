// Why an answer was a refusal, in words: the instruction, where it leads, and what would have to hold.
use crate::levels::put_levels;
use crate::machine_lines::counted;
use crate::output::{Written, put};
use certificate::marks::{MOST_LEVELS, kind_digit, mark_at, need_at};
use certificate::successors::{Successor, Successors, successors_of};
use isa::Refusal;
use isa::decode::decode;
use isa::flow_at::flow_at;
use isa::rom::Space;
use isa::sources::RESET_VECTOR;
use listing::Line;
use listing::instruction::instruction;
use listing::kinds::kind_name;
use listing::pages::{choices_in, paged_address, rom_in};

// `CALL 890h at 881`, or, where there are several pages, `CALL 890h at 2:3F0`.
fn instruction_at(image: &[u8], bank: u8, address: u16) -> Line {
    let begun = match decode(image, bank, address) {
        Ok(decoded) => instruction(Line::new(), decoded.instruction, address).word(b" at "),
        Err(_) => Line::new().word(b"what stands at "),
    };
    paged_address(begun, image.len(), bank, address)
}

// What a mark is: `main (mark 21)`.
fn mark_text(line: Line, mark: u8) -> Line {
    kind_name(line, mark)
        .word(b" (mark ")
        .byte(mark)
        .letter(b')')
}

// The successor whose kind is wrong, the first of two before the second.
fn wrong_kind(certificate: &[u8], first: Successor<u8>, second: Successor<u8>) -> Successor<u8> {
    if kind_digit(mark_at(certificate, first.address)) != first.kind {
        return first;
    }
    second
}

// The levels that a successor asks for.
fn asked(certificate: &[u8], successor: Successor<u8>) -> u32 {
    u32::from(need_at(certificate, successor.address)) + u32::from(successor.levels)
}

// The successor that asks for more levels.
fn deeper(certificate: &[u8], first: Successor<u8>, second: Successor<u8>) -> Successor<u8> {
    if asked(certificate, first) < asked(certificate, second) {
        return second;
    }
    first
}

// 16: where the instruction leads, what stands there, and what should.
fn put_wrong_kind(
    rt: &HostRuntime,
    image: &[u8],
    bank: u8,
    certificate: &[u8],
    at: u16,
    to: Successor<u8>,
) -> Written {
    let there = to.address;
    let begun = instruction_at(image, bank, at).word(b" leads to ");
    let led = paged_address(begun, image.len(), bank, there);
    if rom_in(image, bank, there).is_none() {
        return put(rt, led.word(b", which is outside ROM"));
    }
    put(
        rt,
        mark_text(led.word(b", which is "), mark_at(certificate, there)),
    )?;
    let wanted = Line::new().word(b"there must be a mark of kind ");
    put(rt, kind_name(wanted, to.kind % 16 * 16))
}

// 17 where no mark would do: the need of a subroutine that calls itself has no bound.
fn put_bottomless(rt: &HostRuntime, image: &[u8], bank: u8, at: u16) -> Written {
    let line = instruction_at(image, bank, at).word(
        b" leads deeper than six levels, or into a subroutine that calls itself",
    );
    put(rt, line)
}

// 17: the levels that the instruction needs, and those that its mark allows.
fn put_shallow(
    rt: &HostRuntime,
    image: &[u8],
    bank: u8,
    certificate: &[u8],
    at: u16,
    to: Successor<u8>,
) -> Written {
    if u32::from(MOST_LEVELS) < asked(certificate, to) {
        return put_bottomless(rt, image, bank, at);
    }
    let line = instruction_at(image, bank, at).word(b" needs ");
    let line = counted(line, asked(certificate, to), b"further level").word(b"; its mark allows ");
    put(rt, line.decimal(u32::from(need_at(certificate, at))))?;
    let there = to.address;
    let cause = Line::new().word(b"it leads to ");
    let cause = paged_address(cause, image.len(), bank, there).word(b", which is ");
    put(rt, mark_text(cause, mark_at(certificate, there)))
}

// The successors of the instruction at an address, as code of its mark's kind. By numbers: where the mark has no kind,
// what follows must have none either.
fn successors_at(image: &[u8], bank: u8, certificate: &[u8], address: u16) -> Successors<u8> {
    let kind = kind_digit(mark_at(certificate, address));
    match flow_at(Space::of(image, bank), address) {
        Ok(continuation) => successors_of(kind, continuation.flow, continuation.next),
        Err(_) => Successors::None,
    }
}

// 16. `put_need` is not one function with it: it chooses another of two successors, and writes another text.
fn put_successor_kind(
    rt: &HostRuntime,
    image: &[u8],
    bank: u8,
    certificate: &[u8],
    at: u16,
) -> Written {
    match successors_at(image, bank, certificate, at) {
        Successors::None => Ok(()),
        Successors::One(one) => put_wrong_kind(rt, image, bank, certificate, at, one),
        Successors::Two(first, second) => {
            let wrong = wrong_kind(certificate, first, second);
            put_wrong_kind(rt, image, bank, certificate, at, wrong)
        }
    }
}

// 17.
fn put_need(rt: &HostRuntime, image: &[u8], bank: u8, certificate: &[u8], at: u16) -> Written {
    match successors_at(image, bank, certificate, at) {
        Successors::None => Ok(()),
        Successors::One(one) => put_shallow(rt, image, bank, certificate, at, one),
        Successors::Two(first, second) => {
            let deep = deeper(certificate, first, second);
            put_shallow(rt, image, bank, certificate, at, deep)
        }
    }
}

// 15: the code that RET or RETI stands in, and where each may stand.
fn put_misplaced(rt: &HostRuntime, image: &[u8], bank: u8, certificate: &[u8], at: u16) -> Written {
    let line = instruction_at(image, bank, at).word(b" stands in code of kind ");
    put(rt, mark_text(line, mark_at(certificate, at)))?;
    put_words(
        rt,
        b"RET stands only in subroutines, RETI only in start-up and service code",
    )
}

// 18: the vector, and the kind that it must have.
fn put_vector(rt: &HostRuntime, certificate: &[u8], vector: u16) -> Written {
    let named = Line::new()
        .word(b"the vector ")
        .address(vector)
        .word(b" is ");
    put(rt, mark_text(named, mark_at(certificate, vector)))?;
    if vector == RESET_VECTOR {
        put_words(rt, b"reset begins there: it must be start-up code")
    } else {
        put_words(rt, b"a wired source begins there: it must be service code")
    }
}

// 5: the byte that is no opcode.
fn put_undefined(rt: &HostRuntime, image: &[u8], bank: u8, at: u16) -> Written {
    let Some(byte) = rom_in(image, bank, at) else {
        return Ok(());
    };
    let line = Line::new().word(b"the byte ").byte(byte).word(b" at ");
    let line = paged_address(line, image.len(), bank, at);
    put(rt, line.word(b" is no instruction"))
}

// Words for the address of an instruction, before and after it.
fn put_located(
    rt: &HostRuntime,
    before: &[u8],
    length: usize,
    bank: u8,
    at: u16,
    after: &[u8],
) -> Written {
    let line = paged_address(Line::new().word(before), length, bank, at);
    put(rt, line.word(after))
}

fn put_words(rt: &HostRuntime, words: &[u8]) -> Written {
    put(rt, Line::new().word(words))
}

// 13: how many marks there must be.
fn put_marks_wanted(rt: &HostRuntime, length: usize) -> Written {
    if 1 < choices_in(length) {
        return put_words(rt, b"there must be 4096 marks, one for each address");
    }
    put_words(rt, b"there must be one mark for each byte of the image")
}

// 14: the mark stands for its address with every page.
fn put_malformed(rt: &HostRuntime, at: u16) -> Written {
    let line = Line::new().word(b"the mark at ").address(at);
    put(
        rt,
        line.word(b" is malformed: its kind is 1 to 4, its need 0 to 6, or it is 00"),
    )
}

// Refusals of operations on a machine and of records: what was refused, in words.
fn put_plain(rt: &HostRuntime, length: usize, refusal: Refusal) -> Written {
    match refusal {
        Refusal::ImageLength => put_words(rt, b"an image has 1 to 10 halves of 2048 bytes"),
        Refusal::WindowAddress => put_words(rt, b"a host store to 40h-7Fh, the ROM window"),
        Refusal::UnknownSource => put_words(rt, b"a request byte has only bits 0 to 4"),
        Refusal::CertificateLength => put_marks_wanted(rt, length),
        Refusal::NoSleep => put_words(rt, b"the program does not sleep within 65535 steps"),
        Refusal::RecordVersion => put_words(rt, b"a record's first byte is 1 or 2, its version"),
        Refusal::RecordLength => put_words(
            rt,
            b"the record's length is not what its version and count say",
        ),
        Refusal::RecordEntry => put_words(rt, b"an entry of an unknown kind, or one that is cut"),
        Refusal::RecordTooLong => put_words(rt, b"a record has at most 1048576 bytes of entries"),
        _ => Ok(()),
    }
}

// A step that stopped: 6 and 7.
fn put_stop(rt: &HostRuntime, length: usize, bank: u8, refusal: Refusal) -> Written {
    match refusal {
        Refusal::StackFull(at) => put_located(
            rt,
            b"a push on six levels at ",
            length,
            bank,
            at,
            b": the seventh",
        ),
        Refusal::StackEmpty(at) => put_located(
            rt,
            b"a pop of an empty stack at ",
            length,
            bank,
            at,
            b"",
        ),
        _ => put_plain(rt, length, refusal),
    }
}

// The rule that does not hold, or what stopped.
fn put_rule(
    rt: &HostRuntime,
    image: &[u8],
    bank: u8,
    certificate: &[u8],
    wired: u8,
    refusal: Refusal,
) -> Written {
    match refusal {
        Refusal::OutsideRom(at) => put_located(
            rt,
            b"the instruction at ",
            image.len(),
            bank,
            at,
            b" is not wholly in ROM",
        ),
        Refusal::UndefinedOpcode(at) => put_undefined(rt, image, bank, at),
        Refusal::MalformedMark(at) => put_malformed(rt, at),
        Refusal::MisplacedReturn(at) => put_misplaced(rt, image, bank, certificate, at),
        Refusal::SuccessorKind(at) => put_successor_kind(rt, image, bank, certificate, at),
        Refusal::NeedTooSmall(at) => put_need(rt, image, bank, certificate, at),
        Refusal::VectorKind(vector) => put_vector(rt, certificate, vector),
        Refusal::TooManyLevels => put_levels(rt, certificate, wired),
        _ => put_stop(rt, image.len(), bank, refusal),
    }
}

// Whether a refusal is of an instruction, which the page in place may change; a mark and a vector stand for all pages.
fn is_of_instruction(refusal: Refusal) -> bool {
    matches!(
        refusal,
        Refusal::OutsideRom(_)
            | Refusal::UndefinedOpcode(_)
            | Refusal::StackFull(_)
            | Refusal::StackEmpty(_)
            | Refusal::MisplacedReturn(_)
            | Refusal::SuccessorKind(_)
            | Refusal::NeedTooSmall(_)
    )
}

// Why the check refused, or why a step stopped, with a bank byte; and the page in place, where there are several.
pub fn put_reason(
    rt: &HostRuntime,
    image: &[u8],
    bank: u8,
    certificate: &[u8],
    wired: u8,
    refusal: Refusal,
) -> Written {
    put_rule(rt, image, bank, certificate, wired, refusal)?;
    let pages = choices_in(image.len());
    if pages <= 1 || !is_of_instruction(refusal) {
        return Ok(());
    }
    let line = Line::new()
        .word(b"with page ")
        .decimal(u32::from(bank % pages));
    put(rt, line.word(b" in place"))
}

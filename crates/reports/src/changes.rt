// What a step changed, in words.
use crate::machine_lines::{data_name, mode_name};
use alu::Flags;
use control::Control;
use listing::Line;
use machine::{FlagPairs, Machine};

// A data byte that changed.
fn byte_change(line: Line, address: u8, value: u8) -> Line {
    data_name(line.word(b"; "), address)
        .letter(b' ')
        .byte(value)
}

// The data bytes that differ.
fn byte_changes(line: Line, before: &[u8; 256], after: &[u8; 256]) -> Line {
    let mut text = line;
    for (address, (old, new)) in (0..=255u8).zip(before.iter().zip(after)) {
        if old != new {
            text = byte_change(text, address, *new);
        }
    }
    text
}

fn flag_change(line: Line, name: &[u8], before: bool, after: bool) -> Line {
    if before == after {
        return line;
    }
    let named = line.word(name);
    if after {
        named.letter(b'1')
    } else {
        named.letter(b'0')
    }
}

fn pair_changes(line: Line, before: Flags, after: Flags) -> Line {
    let zero = flag_change(line, b"; Z ", before.zero, after.zero);
    flag_change(zero, b"; C ", before.carry, after.carry)
}

// The flags that differ. A step changes one pair at most.
fn flag_changes(line: Line, before: FlagPairs, after: FlagPairs) -> Line {
    let line = pair_changes(line, before.normal, after.normal);
    let line = pair_changes(line, before.interrupt, after.interrupt);
    pair_changes(line, before.nmi, after.nmi)
}

fn control_changes(line: Line, before: Control, after: Control) -> Line {
    let line = if before.mode == after.mode {
        line
    } else {
        mode_name(line.word(b"; mode "), after.mode)
    };
    if before.asleep == after.asleep {
        return line;
    }
    if after.asleep {
        line.word(b"; asleep")
    } else {
        line.word(b"; awake")
    }
}

// All that a step changed but the PC and the levels, which each line has.
pub fn changes(line: Line, before: Machine, after: Machine) -> Line {
    let line = byte_changes(line, &before.bytes, &after.bytes);
    let line = flag_changes(line, before.flags, after.flags);
    control_changes(line, before.control, after.control)
}

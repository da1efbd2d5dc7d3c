// The ST62 instruction set: its forms, the opcode map's table, decoding and writing, where an instruction may continue,
// and the interrupt sources with their vectors.
#![tactic(auto)]

pub mod code;
pub mod control_flow;
pub mod decode;
pub mod displacement;
pub mod encode;
pub mod flow_at;
pub mod lengths;
pub mod map;
mod parts;
pub mod predecoded;
pub mod refusals;
pub mod rom;
pub mod sources;
pub mod table;
pub mod write;

// A data operand: where an instruction finds its byte in data space.
#[derive(Clone, Copy, Debug, PartialEq, Eq)]
pub enum Operand {
    Direct(u8),
    // 0 to 3: X, Y, V, W.
    Short(u8),
    ThroughX,
    ThroughY,
}

// One case for each of the manual's forms.
#[derive(Clone, Copy, Debug, PartialEq, Eq)]
pub enum Instruction {
    // Short displacements, counted from the next address.
    Jrnz(i8),
    Jrnc(i8),
    Jrz(i8),
    Jrc(i8),
    // Targets.
    Call(u16),
    Jp(u16),
    // Bit number, data address, and a displacement counted from the opcode's address plus 2.
    Jrr(u8, u8, i8),
    Jrs(u8, u8, i8),
    // Bit number and data address.
    Res(u8, u8),
    Set(u8, u8),
    // LD A,operand and LD operand,A.
    LoadA(Operand),
    StoreA(Operand),
    // LDI A, and LDI of a data address: the address, then the immediate.
    LoadAImmediate(u8),
    LoadImmediate(u8, u8),
    Inc(Operand),
    Dec(Operand),
    Add(Operand),
    AddImmediate(u8),
    Sub(Operand),
    SubImmediate(u8),
    And(Operand),
    AndImmediate(u8),
    Cp(Operand),
    CpImmediate(u8),
    Com,
    Rlc,
    Ret,
    Reti,
    Stop,
    Wait,
}

// Why an operation was refused or stopped, in the order of the papers' numbers 1 to 30, with the address where they
// give one.
#[derive(Clone, Copy, Debug, PartialEq, Eq)]
pub enum Refusal {
    ImageLength,
    IllFormedMachine,
    AddressRange,
    OutsideRom(u16),
    UndefinedOpcode(u16),
    StackFull(u16),
    StackEmpty(u16),
    OperandRange,
    BufferLength,
    WindowAddress,
    UnknownSource,
    StepCount,
    CertificateLength,
    MalformedMark(u16),
    MisplacedReturn(u16),
    SuccessorKind(u16),
    NeedTooSmall(u16),
    VectorKind(u16),
    TooManyLevels,
    JobTooShort,
    JobVersion,
    JobLength,
    CheckRefused,
    NoSleep,
    CertificateBuffer,
    NoCertificate,
    RecordVersion,
    RecordLength,
    RecordEntry,
    RecordTooLong,
}

// A refusal's number, alone or with an address: no Option, since the number is always there.
#[derive(Clone, Copy, Debug, PartialEq, Eq)]
pub enum Number {
    Plain(u8),
    Located(u8, u16),
}

// What stands at a program address: an instruction with its length and its cycles.
#[derive(Clone, Copy, Debug, PartialEq, Eq)]
pub struct Decoded {
    pub instruction: Instruction,
    pub length: u8,
    pub cycles: u8,
}

// An instruction's bytes.
#[derive(Clone, Copy, Debug, PartialEq, Eq)]
pub enum Encoded {
    One(u8),
    Two(u8, u8),
    Three(u8, u8, u8),
}

// What a branch tests, and the value at which it jumps: the flag Z or C, or a bit of a data byte.
#[derive(Clone, Copy, Debug, PartialEq, Eq)]
pub enum Condition {
    Zero(bool),
    Carry(bool),
    Bit { address: u8, bit: u8, value: bool },
}

// Where an instruction may continue.
#[derive(Clone, Copy, Debug, PartialEq, Eq)]
pub enum Flow {
    // At the next address.
    Next,
    Jump(u16),
    // At the target where the condition holds, else at the next address.
    Branch { condition: Condition, target: u16 },
    // At the target, and later at the next address, which is pushed.
    Call(u16),
    Return,
    ReturnFromInterrupt,
    // At the next address, asleep.
    Sleep,
}

// Where the instruction at a program address continues, with the address after it.
#[derive(Clone, Copy, Debug, PartialEq, Eq)]
pub struct Continuation {
    pub flow: Flow,
    pub next: u16,
}

// What may ask for a service, in the order of a request byte's bits 0 to 4: NMI and sources 1 to 4.
#[derive(Clone, Copy, Debug, PartialEq, Eq)]
pub enum Source {
    Nmi,
    First,
    Second,
    Third,
    Fourth,
}

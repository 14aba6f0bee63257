// The register that an instruction writes, and those that it must leave to the caller
// (specs/Written.antt).
#![tactic(auto)]

ghost use Rattle.std.specs.Prelude.{◌≡◌};
ghost use Rattle.flow_writes.specs.Written.{access_writes, operation_writes, register_written, written_by, is_callers};

use v8::{Access, Instruction, Operation, Reading};

// r14, the stack pointer.
const STACK_POINTER: u8 = 14;

// The register that an access with rd writes; r0 where it writes none.
fn access_writes(a: Access, rd: u8) -> u8
    ensures { result ≡ access_writes a rd }
{
    match a {
        Access::Loads(_) => rd,
        Access::Stores(_) => 0,
    }
}

// The register that an operation writes; r0 where it writes none.
pub fn operation_writes(x: Operation) -> u8
    ensures { result ≡ operation_writes x }
{
    match x {
        Operation::Sethi { rd, .. } | Operation::Alu { rd, .. } | Operation::Shift { rd, .. } => rd,
        Operation::Memory { access, rd, .. } => access_writes(access, rd),
    }
}

// The register that an instruction writes; r0, where writes vanish, for one that writes none.
pub fn register_written(x: Instruction) -> u8
    ensures { result ≡ register_written x }
{
    match x {
        Instruction::Plain(operation) => operation_writes(operation),
        Instruction::Branch(_) | Instruction::Return => 0,
    }
}

// The register that a word, read as x, writes; r0 where it writes none.
pub fn written_by(x: Reading) -> u8
    ensures { result ≡ written_by x }
{
    match x {
        Reading::Read(instruction) => register_written(instruction),
        Reading::Unread(_) => 0,
    }
}

// Whether a register is the caller's: the stack pointer, a local or an in register.
pub fn is_callers(register: u8) -> bool
    ensures { result ≡ is_callers register }
{
    register == STACK_POINTER || (16..=31).contains(&register)
}

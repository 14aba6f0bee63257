// Ends, registers and codes as data made outside gives them, for the programs that compare.
#![tactic(auto)]

ghost use Rattle.std.specs.Prelude.{◌≡◌};
ghost use Rattle.states.specs.Told.{told_number};

use alu::Codes;
use machine_steps::End;
use step::{MarkedCodes, Registers};

// How a run ended, as a number: 0 returned, 1 spent, else the fault's or the refusal's.
pub fn end_number(end: End) -> u64
    ensures { result ≡ told_number end }
{
    match end {
        End::Returned => 0,
        End::Spent => 1,
        End::Fault(n) | End::Refused(n) => u64::from(n),
    }
}

// The codes NZVC of the lowest four bits, N the highest of them.
pub fn codes_of(number: u32) -> Codes {
    Codes {
        n: number & 8 != 0,
        z: number & 4 != 0,
        v: number & 2 != 0,
        c: number & 1 != 0,
    }
}

// The mark and the codes. (`Codes`, in the crate alu, has no equality.)
fn parts(codes: MarkedCodes) -> [bool; 5] {
    let Codes { n, z, v, c } = codes.value;
    [codes.set, n, z, v, c]
}

// Whether the codes are the same, with the same mark; those that are unset too.
pub fn same_codes(a: MarkedCodes, b: MarkedCodes) -> bool {
    parts(a) == parts(b)
}

// Whether the registers hold the same, with the same marks; those that are unset too.
pub fn same_registers(a: &Registers, b: &Registers) -> bool {
    a.values == b.values && a.marks == b.marks
}

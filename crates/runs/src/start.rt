// What the numbers of a record say: the policy, and the registers and codes before and after.
ghost use Rattle.std.specs.Prelude.{◌+◌, ◌≤◌};

use crate::record::{AFTER, BEFORE, REGIONS, SIZES, field_count, words_end};
use policy::Policy;
use records::given::policy_given;
use records::reading::Numbers;
use states::codes_of;
use std::array;
use step::{MARKS, MarkedCodes, Registers};

// The policy, as it stands: it may break rules.
pub fn policy_of(numbers: &Numbers) -> Policy {
    let first = words_end(numbers);
    let fields = &numbers[first..first + 4 * field_count(numbers)];
    policy_given(numbers[REGIONS], &numbers[SIZES..SIZES + 16], fields)
}

// The marks of the registers, which are the bits of a number, and those of the scratch words, the lowest
// six of another.
fn marks_of(registers: u32, scratch: u32) -> [bool; MARKS] {
    let bits = u64::from(registers) | u64::from(scratch % 64) << 32;
    array::from_fn(|i| bits >> i & 1 == 1)
}

// The state that stands from number `from` on.
fn state_from(numbers: &Numbers, from: usize) -> Registers
    requires { from + 34 ≤ 747 }
{
    let mut values = [0; 32];
    values.copy_from_slice(&numbers[from..from + 32]);
    let number = numbers[from + 33];
    let marks = marks_of(numbers[from + 32], number / 32);
    let codes = MarkedCodes {
        value: codes_of(number),
        set: number & 16 != 0,
    };
    Registers {
        values,
        marks,
        codes,
    }
}

// How the run begins.
pub fn before(numbers: &Numbers) -> Registers {
    state_from(numbers, BEFORE)
}

// How the run must end.
pub fn after(numbers: &Numbers) -> Registers {
    state_from(numbers, AFTER)
}

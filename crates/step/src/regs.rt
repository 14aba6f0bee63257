// Registers with their marks. r0 reads as a set zero, and writes to it vanish.
ghost use Rattle.std.specs.Prelude.{◌≡◌};
ghost use Rattle.step.specs.Registers.{value_of, is_set, register_of, operand_of, written};

use crate::{Marked, Registers};
use v8::Operand;

impl Registers {
    // What register r reads as.
    #[tactic(auto, unfolding(crate::specs::Registers::value_in))]
    pub fn value(&self, r: u8) -> u32
        ensures { result ≡ value_of self.now r }
    {
        let i = r as usize;
        if i == 0 {
            return 0;
        }
        if i < 32 {
            return self.values[i];
        }
        0
    }

    // Whether register r is set.
    #[tactic(auto, unfolding(crate::specs::Registers::set_in))]
    pub fn is_set(&self, r: u8) -> bool
        ensures { result ≡ is_set self.now r }
    {
        let i = r as usize;
        if i == 0 {
            return true;
        }
        if i < 32 {
            return self.marks[i];
        }
        false
    }

    // Writes register r, which is set from then on.
    #[tactic(auto, unfolding(crate::specs::Registers::values_with, crate::specs::Registers::marks_with))]
    pub fn write(&mut self, r: u8, v: u32)
        ensures { self.new ≡ written self.old r v }
    {
        let i = r as usize;
        if i == 0 {
            return;
        }
        if i < 32 {
            self.values[i] = v;
            self.marks[i] = true;
        }
    }

    // What register r reads as, with its mark.
    pub fn register(&self, r: u8) -> Marked
        ensures { result ≡ register_of self.now r }
    {
        Marked {
            value: self.value(r),
            set: self.is_set(r),
        }
    }

    // What a second operand gives, with its mark: a number is always set.
    pub fn operand(&self, x: Operand) -> Marked
        ensures { result ≡ operand_of self.now x }
    {
        match x {
            Operand::Reg(r) => self.register(r),
            Operand::Imm(v) => Marked {
                value: v,
                set: true,
            },
        }
    }
}

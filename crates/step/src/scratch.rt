// The marks of scratch words: they stand after those of the registers.
ghost use Rattle.std.specs.Prelude.{◌≡◌, ◌<◌};
ghost use Rattle.memory.specs.Frame.{scratch_count};
ghost use Rattle.step.specs.Registers.{scratch_set, with_scratch, unset_scratch};

use crate::{FIRST_SCRATCH, Registers};

impl Registers {
    // Whether scratch word k is set.
    pub fn scratch_is_set(&self, k: u8) -> bool
        requires { k < scratch_count }
        ensures { result ≡ scratch_set self.now k }
    {
        let mark = FIRST_SCRATCH + k as usize;
        self.marks[mark]
    }

    // Sets scratch word k.
    pub fn set_scratch(&mut self, k: u8)
        requires { k < scratch_count }
        ensures { self.new ≡ with_scratch self.old k }
    {
        let i = FIRST_SCRATCH + k as usize;
        self.marks[i] = true;
    }

    // Makes the six scratch words unset.
    pub fn unset_scratch(&mut self)
        ensures { self.new ≡ unset_scratch self.old }
    {
        self.marks[FIRST_SCRATCH..].fill(false);
    }
}

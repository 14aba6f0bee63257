// Operations on natural numbers that are defined everywhere, as the definitions use them.
ghost use Rattle.std.specs.Prelude.{◌≡◌, ◌-◌, ◌%◌};

// The remainder, the number itself by 0.
pub fn remainder(d: u32, step: u8) -> u32
    ensures { result ≡ d % step }
{
    d.checked_rem(step as u32).unwrap_or(d)
}

// The largest multiple of a step up to `d`.
pub fn round_down(d: u32, step: u8) -> u32
    ensures { result ≡ d - d % step }
{
    d - remainder(d, step)
}

// Signed numbers in words: the forms that they are held in (specs/Signed.antt).
ghost use Rattle.std.specs.Prelude.{◌≡◌, ◌<◌, ◌≤◌, ◌^◌};
ghost use Rattle.v8.specs.Signed.{sign_extend, excess};

// The bias of the excess form: 0 in that form.
pub const BIAS: u32 = 2147483648;

// The excess form of a word, and the word of an excess form.
pub fn excess(x: u32) -> u32
    ensures { result ≡ excess x }
{
    x.wrapping_add(BIAS)
}

// A field of `bits` bits, sign-extended to 32 bits.
pub fn sign_extend(bits: u32, x: u32) -> u32
    requires { (1 ≤ bits) × (bits ≤ 31) × (x < 2 ^ bits) }
    ensures { result ≡ sign_extend bits x }
{
    let half = 1u32 << (bits - 1);
    if x < half {
        return x;
    }
    x.wrapping_sub(1 << bits)
}

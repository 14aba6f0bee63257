// The bit fields of a word, by the manuals' names (specs/Field.antt).
ghost use Rattle.std.specs.Prelude.{◌≡◌, ◌<◌, ◌≤◌};
ghost use Rattle.v8.specs.Field.{bits, rd_of, annul_of, cond_of, op2_of, low22_of, cc_of, predict_of, low19_of, op3_of, rs1_of, i_of, unused_of, rs2_of, simm13_of};

// Bits high:low of a word.
fn bits(high: u32, low: u32, w: u32) -> u32
    requires { (low ≤ high) × (high < 31) }
    ensures { result ≡ bits high low w }
{
    (w >> low) % (1 << (high + 1 - low))
}

pub fn rd_of(w: u32) -> u8
    ensures { result ≡ rd_of w }
{
    bits(29, 25, w) as u8
}

pub fn annul_of(w: u32) -> u32
    ensures { result ≡ annul_of w }
{
    bits(29, 29, w)
}

pub fn cond_of(w: u32) -> u8
    ensures { result ≡ cond_of w }
{
    bits(28, 25, w) as u8
}

pub fn op2_of(w: u32) -> u32
    ensures { result ≡ op2_of w }
{
    bits(24, 22, w)
}

pub fn low22_of(w: u32) -> u32
    ensures { result ≡ low22_of w }
{
    bits(21, 0, w)
}

pub fn cc_of(w: u32) -> u32
    ensures { result ≡ cc_of w }
{
    bits(21, 20, w)
}

pub fn predict_of(w: u32) -> u32
    ensures { result ≡ predict_of w }
{
    bits(19, 19, w)
}

pub fn low19_of(w: u32) -> u32
    ensures { result ≡ low19_of w }
{
    bits(18, 0, w)
}

pub fn op3_of(w: u32) -> u32
    ensures { result ≡ op3_of w }
{
    bits(24, 19, w)
}

pub fn rs1_of(w: u32) -> u8
    ensures { result ≡ rs1_of w }
{
    bits(18, 14, w) as u8
}

pub fn i_of(w: u32) -> u32
    ensures { result ≡ i_of w }
{
    bits(13, 13, w)
}

pub fn unused_of(w: u32) -> u32
    ensures { result ≡ unused_of w }
{
    bits(12, 5, w)
}

pub fn rs2_of(w: u32) -> u8
    ensures { result ≡ rs2_of w }
{
    bits(4, 0, w) as u8
}

pub fn simm13_of(w: u32) -> u32
    ensures { result ≡ simm13_of w }
{
    bits(12, 0, w)
}

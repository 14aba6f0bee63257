// What an access needs of a field: its width, its element and its permission.
ghost use Rattle.std.specs.Prelude.{◌≡◌, ◌≤◌};
ghost use Rattle.access.specs.Serve.{access_width, is_word, serves, allows, addend};

use v8::{Access, Displacement, LoadOp, Operand, StoreOp};

// How many bytes an access touches.
pub fn width_of(a: Access) -> u32
    ensures { (result ≡ access_width a) × (1 ≤ result) × (result ≤ 4) }
{
    match a {
        Access::Loads(LoadOp::Ld) | Access::Stores(StoreOp::St) => 4,
        Access::Loads(LoadOp::Lduh | LoadOp::Ldsh) | Access::Stores(StoreOp::Sth) => 2,
        Access::Loads(LoadOp::Ldub | LoadOp::Ldsb) | Access::Stores(StoreOp::Stb) => 1,
    }
}

// Whether an access is LD or ST, those of a word.
pub fn is_word(a: Access) -> bool
    ensures { result ≡ is_word a }
{
    width_of(a) == 4
}

// Whether an access serves an element.
pub fn serves_element(a: Access, e: u8) -> bool
    ensures { result ≡ serves a e }
{
    match a {
        Access::Loads(LoadOp::Ld) | Access::Stores(StoreOp::St) => (5 <= e) & (e <= 7),
        Access::Loads(LoadOp::Ldub) => e == 1,
        Access::Loads(LoadOp::Lduh) => e == 3,
        Access::Loads(LoadOp::Ldsb) => e == 2,
        Access::Loads(LoadOp::Ldsh) => e == 4,
        Access::Stores(StoreOp::Stb) => (e == 1) | (e == 2),
        Access::Stores(StoreOp::Sth) => (e == 3) | (e == 4),
    }
}

// Whether a permission allows an access.
pub fn allowed(a: Access, permission: u8) -> bool
    ensures { result ≡ allows a permission }
{
    match a {
        Access::Loads(_) => (permission == 1) | (permission == 3),
        Access::Stores(_) => (permission == 2) | (permission == 3),
    }
}

// An address's second part, as the operand that is added. A `From` could stand only in v8, beside both
// types.
pub fn addend_of(d: Displacement) -> Operand
    ensures { result ≡ addend d }
{
    match d {
        Displacement::Index(r) => Operand::Reg(r),
        Displacement::Bytes(n) => Operand::Imm(n.0),
    }
}

// The policy that the numbers of a record give. A field is 4 numbers: place, element, permission and
// target, a byte each; offset and count, 16 bits each; lo; hi.
ghost use Rattle.std.specs.Prelude.{◌≡◌, ◌<◌, length};

use policy::{Field, Policy};
use v8::ByteOffset;

// The place of a field, and the field.
fn field_of(numbers: [u32; 4]) -> (usize, Field)
    ensures { result.0 < 128 }
{
    let [kinds, extent, lo, hi] = numbers;
    let [place, element, permission, target] = kinds.to_be_bytes();
    let field = Field {
        element,
        permission,
        target,
        offset: ByteOffset(extent / 65536),
        count: (extent % 65536) as u16,
        lo,
        hi,
    };
    (usize::from(place % 128), field)
}

// The policy that parts of a record give, as it stands: it may break rules. `regions` says how many
// regions there are, and `sizes` has the sizes of 8 and behind them how many fields each has.
pub fn policy_given(regions: u32, sizes: &[u32], fields: &[u32]) -> Policy
    requires { length sizes.now ≡ 16 }
{
    let mut policy = Policy::empty();
    policy.regions.count = (regions % 256) as u8;
    for r in 0..8 {
        policy.regions.sizes[r] = (sizes[r] % 65536) as u16;
        policy.regions.fields[r] = (sizes[8 + r] % 256) as u8;
    }
    for &numbers in fields.as_chunks().0 {
        let (place, field) = field_of(numbers);
        policy.fields[place] = field;
    }
    policy
}

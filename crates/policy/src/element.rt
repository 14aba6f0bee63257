// The elements of a field: how wide each is, and which numbers it holds (specs/Element.antt).
ghost use Rattle.std.specs.Prelude.{◌≡◌, ◌≤◌};
ghost use Rattle.policy.specs.Element.{width_of};

// The width in bytes of each element, by its number; 0 is no element.
pub const WIDTHS: [u8; 8] = [1, 1, 1, 2, 2, 4, 4, 4];
// The least number of each of the elements 1 to 5, in excess form. It stays apart from the greatest
// ones, as the definitions `leasts` and `mosts` do.
pub const LEASTS: [u32; 6] = [
    2147483648, 2147483648, 2147483520, 2147483648, 2147450880, 0,
];
// The greatest number of each of the elements 1 to 5, in excess form.
pub const MOSTS: [u32; 6] = [
    2147483648, 2147483903, 2147483775, 2147549183, 2147516415, 4294967295,
];

// The width of an element in bytes; a number that is no element's is taken for one byte wide.
pub fn width_of(element: u8) -> u8
    ensures { (result ≡ width_of element) × (1 ≤ result) × (result ≤ 4) }
{
    if element < 8 {
        return WIDTHS[element as usize];
    }
    1
}

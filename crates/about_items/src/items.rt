// Items: a name and values on a line.
use output::{print, print_number};
use v8::signed::BIAS;

// A value of the item.
pub fn value(n: u64) {
    print(b" ");
    print_number(n);
}

// A yes or no, as 1 or 0.
pub fn flag(holds: bool) {
    value(u64::from(holds))
}

// A signed number, which stands in excess form.
pub fn signed(n: u32) {
    if n < BIAS {
        print(b" -");
        print_number((BIAS - n) as u64);
    } else {
        value((n - BIAS) as u64);
    }
}

// The end of the item.
pub fn done() {
    print(b"\n");
}

// An item with no values.
pub fn bare(name: &[u8]) {
    print(name);
    done();
}

// An item with one value.
pub fn single(name: &[u8], n: u64) {
    print(name);
    value(n);
    done();
}

// The bytes of a part, as an item.
pub fn show_bytes(part: &[u8]) {
    print(b"bytes");
    for &byte in part {
        value(byte as u64);
    }
    done();
}

// Bytes that are no bundle: the first test that they fail, and where.
use about_items::items::{bare, single};
use bundle_layout::{
    HEAD_BYTES, REGION_BYTES, field_place, field_total, field_zero, head_ok, length_given,
    most_bytes, region_count, region_zero,
};

// The first region whose zero is not zero, and whether there is one.
fn show_region_zero(bytes: &[u8]) -> bool {
    for i in 0..region_count(bytes) {
        if !region_zero(bytes, i) {
            single(b"part region", i as u64);
            single(b"at", (HEAD_BYTES + REGION_BYTES * i + 3) as u64);
            return true;
        }
    }
    false
}

// The first field whose zero is not zero.
fn show_field_zero(bytes: &[u8]) {
    for i in 0..field_total(bytes) {
        if !field_zero(bytes, i) {
            single(b"part field", i as u64);
            return single(b"at", (field_place(bytes, i) + 3) as u64);
        }
    }
}

// Why the bytes are no bundle.
pub fn show_no_bundle(bytes: &[u8]) {
    let length = bytes.len();
    single(b"length", length as u64);
    if most_bytes(bytes) < length {
        return bare(b"part size");
    }
    if !head_ok(bytes) {
        bare(b"part head");
        return single(b"at", 0);
    }
    let given = length_given(bytes);
    if length != given {
        return single(b"given", given as u64);
    }
    if !show_region_zero(bytes) {
        show_field_zero(bytes);
    }
}

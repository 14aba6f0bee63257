// The policy: regions of memory and their fields, the rules they obey, and the three operations that
// build one. (Document 01, "Policy".)
#![tactic(auto)]

use v8::ByteOffset;

// The elements' widths and ranges.
pub mod element;
// The rules that a policy obeys.
mod form;
// The operations that build a policy.
pub mod build;

// A field of a region: `count` elements that begin `offset` bytes after the region's start.
// lo and hi are signed numbers in excess form, 2^31 more than the number.
#[derive(Clone, Copy)]
pub struct Field {
    pub element: u8,
    pub permission: u8,
    pub target: u8,
    pub offset: ByteOffset,
    pub count: u16,
    pub lo: u32,
    pub hi: u32,
}

// The regions of a policy: how many there are, and of each its size in bytes and how many fields it has.
// Sizes and counts stay two arrays, since the definitions of rows and of the memory take a list of sizes.
#[derive(Clone, Copy)]
pub struct Regions {
    pub count: u8,
    pub sizes: [u16; 8],
    pub fields: [u8; 8],
}

// A policy of at most 8 regions of at most 16 fields: field k of region r stands at place 16 r + k of
// `fields`. Places that are not in use mean nothing.
#[derive(Clone, Copy)]
pub struct Policy {
    pub regions: Regions,
    pub fields: [Field; 128],
}

// What an add gives: the next policy and 0, or the policy given and the number of the refusal. The
// number's type is to follow.
#[derive(Clone, Copy)]
pub struct Built {
    pub policy: Policy,
    pub number: u8,
}

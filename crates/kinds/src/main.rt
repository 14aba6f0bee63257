// Lists the kinds of a bundle's routine on the older terminal, whose processor follows SPARC Version 8
// (crates/kindlines/src/lib.rt).
#![tactic(auto)]

use kindlines::list;
use v8::Edition;

fn main() {
    list(Edition::V8)
}

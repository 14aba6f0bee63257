// Lists the kinds of a bundle's routine on the newer terminal, whose processor follows SPARC Version 9
// (crates/kindlines/src/lib.rt).
#![tactic(auto)]

use kindlines::list;
use v8::Edition;

fn main() {
    list(Edition::V9)
}

// Explains the answer to a bundle on the newer terminal, whose processor follows SPARC Version 9:
// prints the line that answers it, and then what the answer is about (crates/about/src/lib.rt).
#![tactic(auto)]

use about::explain;
use v8::Edition;

fn main() {
    explain(Edition::V9)
}

// Finds the rows of a bundle's routine on the newer terminal, whose processor follows SPARC Version 9
// (crates/completion/src/lib.rt).
#![tactic(auto)]

use completion::serve;
use v8::Edition;

fn main() {
    serve(Edition::V9)
}

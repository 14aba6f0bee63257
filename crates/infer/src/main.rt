// Finds the rows of a bundle's routine on the older terminal, whose processor follows SPARC Version 8
// (crates/completion/src/lib.rt).
#![tactic(auto)]

use completion::serve;
use v8::Edition;

fn main() {
    serve(Edition::V8)
}

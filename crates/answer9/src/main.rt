// The bundle program of the newer terminal, whose processor follows SPARC Version 9: reads one
// bundle from standard input and prints the line that answers it. (Document 01, "Bundle".)
#![tactic(auto)]

use reply::serve;
use v8::Edition;

fn main() {
    serve(Edition::V9)
}

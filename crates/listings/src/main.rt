// Holds the reader and the writer of words against an assembler's listing, read from standard
// input. Each line is judged on both terminals. It is a word and the assembler's text of it, as
// `82006ffc add %g1,4092,%g1`; or such a word that only the newer terminal reads, as
// `12480004 V9 bne,pt %icc,.+16`, and the older one refuses with 2; or a word that both refuse, with the
// number, as `c43a4000 !2 std %g2,[%o1]`, or 24 if it is privileged. Prints each line that is wrong,
// then counts.
#![tactic(auto)]

mod line;
mod report;
mod text;

// Room for a listing, and a byte more than it may have.
const ROOM: usize = 65536;

fn main() {
    let mut input = [0; ROOM];
    let n = io::read_full(output::STDIN_FILENO, &mut input);
    if n < ROOM {
        report::check_lines(&input[..n]);
    } else {
        output::print(b"more than 65535 bytes\n");
    }
}

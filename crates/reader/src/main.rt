// The program: reads the grammar file `grammar.bin` and a report on standard input, and prints the line of the run.
#![tactic(auto)]

use files::{STDIN, STDOUT};

// Files and the line stand in fixed arrays: there is no heap here. A file or report that fills its buffer of 65,536 bytes is
// over length. A grammar file that cannot be opened gave no bytes.
fn main(rt: HostRuntime) {
    let mut file = io::large_buffer();
    let mut report = io::large_buffer();
    let n = files::read(&rt, "grammar.bin", &mut file).unwrap_or(0);
    let m = io::read_full(STDIN, &mut report);
    let mut out = [0u8; 64];
    let k = line::write(&file[..n], &report[..m], &mut out);
    io::write_all(STDOUT, slices::front(&out, k));
}

// The program `entries`: reads the grammar file `grammar.bin` and a report on standard input, and prints the entries of the
// run, a line each behind two blanks for each entry around it, and then the line of the run. Where that failed, or left tokens,
// a line more says where the farthest place is.
#![tactic(auto)]

use files::{STDIN, STDOUT};

// A file or report that fills its buffer of 65,536 bytes is over length. A grammar file that cannot be opened gave no bytes.
fn main(rt: HostRuntime) {
    let mut file = io::large_buffer();
    let mut report = io::large_buffer();
    let n = files::read(&rt, "grammar.bin", &mut file).unwrap_or(0);
    let m = io::read_full(STDIN, &mut report);
    print(&file[..n], &report[..m]);
}

// Prints the entries, of which there may be 16,384, the line of the run and where the farthest place is. Tokens, captures and
// lines stand in fixed arrays: there is no heap here.
fn print(file: &[u8], report: &[u8]) {
    let mut tokens = [0u32; 16384];
    let mut captures = [0u32; 65536];
    let x = line::list(file, report, &mut tokens, &mut captures);
    let read = slices::front_tokens(&tokens, x.tokens);
    print_entries(file, report, read, &captures, x.captures);
    let mut out = [0u8; 64];
    let k = answer_line::write(x.answer, &mut out);
    io::write_all(STDOUT, slices::front(&out, k));
    let n = answer_line::farthest::write(report, read, x.answer, &mut out);
    io::write_all(STDOUT, slices::front(&out, n));
}

// Prints so many entries. A line has room in as many bytes as `answer_line::entry::ROOM`.
fn print_entries(file: &[u8], report: &[u8], tokens: &[u32], captures: &[u32], count: usize) {
    let mut out = [0u8; 65664];
    for i in 0..count {
        let c = line::capture_at(captures, i);
        print_blanks(c.around);
        let k = answer_line::entry::write(file, report, tokens, c, &mut out);
        io::write_all(STDOUT, slices::front(&out, k));
    }
}

// Prints two blanks for each entry around one.
fn print_blanks(around: u32) {
    let blanks = [b' '; 64];
    let count = around as usize * 2;
    for _ in 0..count / blanks.len() {
        io::write_all(STDOUT, &blanks);
    }
    io::write_all(STDOUT, &blanks[..count % blanks.len()]);
}

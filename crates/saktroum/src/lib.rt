// The C interface: the four parts, the writer of grammar files, captures and what is shown for them, the program's line and
// the names of a file, over plain slices. `include/saktroum.h` declares it for C.
#![tactic(auto)]

ghost use Rattle.std.specs.Prelude.{◌≡◌, length};
ghost use Rattle.table.specs.Answer.{afterwards};
ghost use Rattle.grammar_file.specs.File.{fields_of, node_table, rule_list, read_answer, keyword_bytes, name_bytes};
ghost use Rattle.grammar_writer.specs.Written.{written_file, write_answer};
ghost use Rattle.token_words.specs.Scan.{words_of, scan_tokens, scan_answer};
ghost use Rattle.well_formed.specs.Check.{check_answer};
ghost use Rattle.clauses.specs.RunAnswer.{run_answer};
ghost use Rattle.clauses.specs.Remembering.{memory_after};
ghost use Rattle.clauses.specs.ListAnswer.{list_answer, list_after};
ghost use Rattle.shown_text.specs.Shown.{shown_answer};
ghost use Rattle.line.specs.Line.{line_count, line_after};
ghost use Rattle.readings.specs.Readings.{reading_of};
ghost use Rattle.reported.specs.Reported.{number, reported, contents_words, count_words, part_words};
ghost use Rattle.reported.specs.Reported.{RunReported, ListReported, upper_from, start_from, capture_from};
ghost use Rattle.slices.specs.Copied.{copied};

use columns::{Capture, Interval, Start, Upper};
use readings::reading;

// Reads a grammar file. The answer is 0, with the counts of nodes, rules and keywords, the start node and its mode in
// `res`, or the number that refused the call.
#[unsafe(no_mangle)]
pub extern "C" fn saktroum_read(
    file: &[u8],
    nodes: &mut [u16],
    rules: &mut [u16],
    res: &mut [usize; 5],
) -> u32
    ensures value { result
        ≡ number (read_answer file.now (length nodes.old) (length rules.old)) }
    ensures nodes_after { nodes.new
        ≡ afterwards (read_answer file.now (length nodes.old) (length rules.old))
        (node_table (fields_of file.now)) nodes.old }
    ensures rules_after { rules.new
        ≡ afterwards (read_answer file.now (length nodes.old) (length rules.old))
        (rule_list (fields_of file.now)) rules.old }
    ensures res_after { res.new
        ≡ reported contents_words
        (read_answer file.now (length nodes.old) (length rules.old)) res.old }
{
    let x = grammar_file::read(file, nodes, rules);
    reported::report_read(x, res)
}

// Writes the grammar file of a table, its rules and a start, with the keywords and rule names of a lending file. The answer
// is 0, with the number of bytes in `res`, or the number that refused the call.
#[unsafe(no_mangle)]
pub extern "C" fn saktroum_write(
    lending: &[u8],
    nodes: &[u16],
    rules: &[u16],
    node: u16,
    mode: u16,
    out: &mut [u8],
    res: &mut [usize; 1],
) -> u32
    ensures value { result
        ≡ number (write_answer lending.now nodes.now rules.now node mode
        (length out.old)) }
    ensures out_after { out.new
        ≡ afterwards (write_answer lending.now nodes.now rules.now node mode
        (length out.old))
        (written_file lending.now nodes.now rules.now node mode) out.old }
    ensures res_after { res.new
        ≡ reported count_words (write_answer lending.now nodes.now rules.now node mode
        (length out.old)) res.old }
{
    let x = grammar_writer::write(lending, nodes, rules, node, mode, out);
    reported::report_count(x, res)
}

// Scans a report by the keywords of a grammar file. The answer is 0, with the number of tokens in `res`, or the
// number that refused the call.
#[unsafe(no_mangle)]
pub extern "C" fn saktroum_scan(
    file: &[u8],
    report: &[u8],
    tokens: &mut [u32],
    res: &mut [usize; 1],
) -> u32
    ensures value { result ≡ number (scan_answer file.now report.now (length tokens.old)) }
    ensures tokens_after { tokens.new
        ≡ afterwards (scan_answer file.now report.now (length tokens.old))
        (words_of (scan_tokens file.now report.now)) tokens.old }
    ensures res_after { res.new
        ≡ reported count_words (scan_answer file.now report.now (length tokens.old))
        res.old }
{
    let x = token_words::scan(file, report, tokens);
    reported::report_count(x, res)
}

// Checks that a grammar is well formed. The answer is 0 or the number that refused the call, for 7 with the node.
#[unsafe(no_mangle)]
pub extern "C" fn saktroum_check(nodes: &[u16], rules: &[u16]) -> u32
    ensures { result ≡ number (check_answer nodes.now rules.now) }
{
    let x = well_formed::check(nodes, rules);
    reported::report_check(x)
}

// Runs a grammar on tokens from a start, by the reading of 2014 or of 2017, a flag as C hands it. The answer is 0, with success
// or failure and the farthest place in `res`, or the number that refused the call, for 7 with the node.
#[unsafe(no_mangle)]
pub extern "C" fn saktroum_run(
    nodes: &[u16],
    rules: &[u16],
    tokens: &[u32],
    node: u16,
    place: u32,
    lower: u32,
    upper: u32,
    endless: bool,
    flag: bool,
    mode: u16,
    by_2014: bool,
    res: &mut [usize; 7],
) -> u32
    ensures value { result
        ≡ number (run_answer (reading_of by_2014) nodes.now rules.now tokens.now
        (start_from node place lower upper endless flag mode)) }
    ensures run_reported { RunReported place res.old
        (run_answer (reading_of by_2014) nodes.now rules.now tokens.now
        (start_from node place lower upper endless flag mode))
        res.new }
{
    let start = start_from(node, place, lower, upper, endless, flag, mode);
    let x = interpreter::run(nodes, rules, tokens, start, reading(by_2014));
    reported::report(x, res)
}

// Runs a grammar in the same way, and remembers outcomes in the lent words, which are 0 afterwards.
#[unsafe(no_mangle)]
pub extern "C" fn saktroum_remember(
    nodes: &[u16],
    rules: &[u16],
    tokens: &[u32],
    node: u16,
    place: u32,
    lower: u32,
    upper: u32,
    endless: bool,
    flag: bool,
    mode: u16,
    by_2014: bool,
    memory: &mut [u32],
    res: &mut [usize; 7],
) -> u32
    ensures value { result
        ≡ number (run_answer (reading_of by_2014) nodes.now rules.now tokens.now
        (start_from node place lower upper endless flag mode)) }
    ensures memory_after { memory.new
        ≡ memory_after (reading_of by_2014) nodes.now rules.now tokens.now
        (start_from node place lower upper endless flag mode) memory.old }
    ensures run_reported { RunReported place res.old
        (run_answer (reading_of by_2014) nodes.now rules.now tokens.now
        (start_from node place lower upper endless flag mode))
        res.new }
{
    let start = start_from(node, place, lower, upper, endless, flag, mode);
    let x = interpreter::remember(nodes, rules, tokens, start, reading(by_2014), memory);
    reported::report(x, res)
}

// Runs a grammar in the same way and lists its captures, four words each, with zeros behind them. A success has their
// number in `res` besides.
#[unsafe(no_mangle)]
pub extern "C" fn saktroum_list(
    nodes: &[u16],
    rules: &[u16],
    tokens: &[u32],
    node: u16,
    place: u32,
    lower: u32,
    upper: u32,
    endless: bool,
    flag: bool,
    mode: u16,
    by_2014: bool,
    captures: &mut [u32],
    res: &mut [usize; 8],
) -> u32
    ensures value { result
        ≡ number (list_answer (reading_of by_2014) nodes.now rules.now tokens.now
        (start_from node place lower upper endless flag mode) (length captures.old)) }
    ensures captures_after { captures.new
        ≡ list_after (reading_of by_2014) nodes.now rules.now tokens.now
        (start_from node place lower upper endless flag mode) captures.old }
    ensures list_reported { ListReported place res.old
        (list_answer (reading_of by_2014) nodes.now rules.now tokens.now
        (start_from node place lower upper endless flag mode) (length captures.old))
        res.new }
{
    let start = start_from(node, place, lower, upper, endless, flag, mode);
    let x = interpreter::list(nodes, rules, tokens, start, reading(by_2014), captures);
    reported::report_list(x, res)
}

// Says where the text shown for a capture lies. The answer is 0, with its offset, its length and the slice that it lies
// in, 0 for the report and 1 for the file, in `res`, or the number that refused the call.
#[unsafe(no_mangle)]
pub extern "C" fn saktroum_shown(
    file: &[u8],
    report: &[u8],
    tokens: &[u32],
    rule: u32,
    first: u32,
    after: u32,
    around: u32,
    res: &mut [usize; 3],
) -> u32
    ensures value { result
        ≡ number (shown_answer file.now report.now tokens.now
        (capture_from rule first after around)) }
    ensures res_after { res.new
        ≡ reported part_words
        (shown_answer file.now report.now tokens.now (capture_from rule first after around))
        res.old }
{
    let capture = Capture {
        rule,
        first,
        after,
        around,
    };
    let x = shown_text::shown(file, report, tokens, capture);
    reported::report_shown(x, res)
}

// The start of a run.
fn start_from(
    node: u16,
    place: u32,
    lower: u32,
    upper: u32,
    endless: bool,
    flag: bool,
    mode: u16,
) -> Start
    ensures { result ≡ start_from node place lower upper endless flag mode }
{
    let interval = Interval {
        lower,
        upper: upper_from(upper, endless),
    };
    Start {
        node,
        place,
        interval,
        flag,
        mode,
    }
}

// The upper end of a start.
fn upper_from(upper: u32, endless: bool) -> Upper
    ensures { result ≡ upper_from upper endless }
{
    if endless {
        Upper::Endless
    } else {
        Upper::At(upper)
    }
}

// Writes the program's line, and says how many bytes it has. A slice of fewer than 64 bytes is left as it is, and the
// answer is 0.
#[unsafe(no_mangle)]
pub extern "C" fn saktroum_line(file: &[u8], report: &[u8], out: &mut [u8]) -> usize
    ensures value { result ≡ line_count file.now report.now (length out.old) }
    ensures out_after { out.new ≡ line_after file.now report.now out.old }
{
    line::write(file, report, out)
}

// Copies the bytes of a keyword of a grammar file, and says how many there are: 0 where the file is refused or has no
// such keyword. A slice that is too short is left as it is.
#[unsafe(no_mangle)]
pub extern "C" fn saktroum_keyword(file: &[u8], index: usize, out: &mut [u8]) -> usize
    ensures value { result ≡ length (keyword_bytes file.now index) }
    ensures out_after { out.new ≡ copied (keyword_bytes file.now index) out.old }
{
    let keyword = grammar_file::keyword(file, index);
    slices::copy(keyword, out)
}

// Copies the bytes of a rule's name, in the same way.
#[unsafe(no_mangle)]
pub extern "C" fn saktroum_rule_name(file: &[u8], index: usize, out: &mut [u8]) -> usize
    ensures value { result ≡ length (name_bytes file.now index) }
    ensures out_after { out.new ≡ copied (name_bytes file.now index) out.old }
{
    let name = grammar_file::rule_name(file, index);
    slices::copy(name, out)
}

// The grammar file writer: from a table, its rules and a start to the bytes of a grammar file, with the keywords and rule
// names of a file that lends them (02, Note 4).
#![tactic(auto)]

ghost use Rattle.std.specs.Prelude.{◌≡◌, true, ◌++◌, ◌+◌, ◌*◌, ◌≤◌, ◌<◌, length};
ghost use Rattle.table.specs.Answer.{afterwards};
ghost use Rattle.table.specs.Checks.{numbers as table_numbers};
ghost use Rattle.table.specs.Form.{node_count};
ghost use Rattle.file_fields.specs.Offsets.{spellings_from};
ghost use Rattle.spellings.specs.Spellings.{right_spellings};
ghost use Rattle.grammar_writer.specs.FieldBytes.{field, field_bytes, bytes_of};
ghost use Rattle.grammar_writer.specs.Written.{keyword_fields, rule_fields, node_fields, written_file, write_answer, numbers};
ghost use Rattle.grammar_writer.specs.InternalWriting.{ByteWords, Lends, started_answer, lent_answer, file_of, LendsFor, answer_for};
ghost use Rattle.slices.specs.Copied.{over};

use file_fields::{next_at, spelling_at, tags};
use file_shape::{FIRST_KEYWORD, Shape, inspect};
use slices::put;
use table::Refusal;

// What is written: a table, its rules and a start, with the keywords and rule names of a lending file of a known shape.
#[derive(Clone, Copy)]
struct Grammar<'a> {
    lending: &'a [u8],
    shape: Shape,
    nodes: &'a [u16],
    rules: &'a [u16],
    node: u16,
    mode: u16,
}

// The most bytes of a written file: tag 1's 4, 253 keywords of 35, 128 rules of 37, 512 nodes of 9 and the start's 6.
pub const MOST_BYTES: usize = 18209;

// Writes the grammar file of a table, its rules and a start, with the keywords and rule names of a lending file, and
// answers how many bytes it has, or the first check that fails.
pub fn write(
    lending: &[u8],
    nodes: &[u16],
    rules: &[u16],
    node: u16,
    mode: u16,
    out: &mut [u8],
) -> Result<usize, Refusal>
    ensures result_value { numbers result
        ≡ write_answer lending.now nodes.now rules.now node mode
        (length out.old) }
    ensures out_after { out.new
        ≡ afterwards (numbers result)
        (written_file lending.now nodes.now rules.now node mode) out.old }
{
    let shape = inspect(lending)?;
    check_started(nodes, rules, node, mode)?;
    let grammar = Grammar {
        lending,
        shape,
        nodes,
        rules,
        node,
        mode,
    };
    write_named(grammar, out)
}

// The first of 3, 4 and 5 that fails for a table and its rules with a start, or none.
fn check_started(nodes: &[u16], rules: &[u16], node: u16, mode: u16) -> Result<(), Refusal>
    ensures { table_numbers result ≡ started_answer nodes.now rules.now node mode }
{
    table::check(nodes, rules)?;
    if usize::from(node) >= nodes.len() / 4 || mode >= table::RELATIONS {
        return Err(Refusal::Rule);
    }
    Ok(())
}

// Writes the file where the lending file, the tables and the start have passed: numbers 15 and 6.
fn write_named(grammar: Grammar<'_>, out: &mut [u8]) -> Result<usize, Refusal>
    requires { LendsFor grammar }
    ensures result_value { numbers result ≡ answer_for grammar.entry (length out.old) }
    ensures out_after { out.new ≡ afterwards (numbers result) (file_of grammar.entry) out.old }
{
    if grammar.rules.len() != grammar.shape.rules.count {
        return Err(Refusal::RuleCount);
    }
    let mut file = [0u8; MOST_BYTES]; // a fixed array: there is no heap here
    let n = put_file(grammar, &mut file);
    if out.len() < n {
        return Err(Refusal::Room);
    }
    out[..n].copy_from_slice(&file[..n]);
    Ok(n)
}

// Puts the file into a slice with room for the longest one, and says where it ends.
fn put_file(grammar: Grammar<'_>, out: &mut [u8]) -> usize
    requires lends { LendsFor grammar }
    requires rules_len { length grammar.rules.now ≡ grammar.shape.rules.count }
    requires in_bounds { 18209 ≤ length out.old }
    ensures value { result ≡ length (file_of grammar.entry) }
    ensures out_after { out.new ≡ over 0 (file_of grammar.entry) out.old }
{
    let start = grammar.node.to_be_bytes();
    let start_mode = [grammar.mode as u8];
    let keywords_at = put_field(tags::FORMAT, &[], &[1], out, 0);
    let rules_at = put_keywords(grammar.lending, grammar.shape.keywords, out, keywords_at);
    let nodes_at = put_rules(
        grammar.lending,
        grammar.shape.rules.at,
        grammar.rules,
        out,
        rules_at,
    );
    let start_at = put_nodes(grammar.nodes, out, nodes_at);
    put_field(tags::START, &start, &start_mode, out, start_at)
}

// Puts the fields of a file's first keywords from an index on, and says where they end.
fn put_keywords(file: &[u8], count: usize, out: &mut [u8], to: usize) -> usize
    requires count_value { right_spellings (spellings_from file.now 4 count 0) ≡ true }
    requires count_in_bounds { to + count * 35 ≤ length out.old }
    ensures value { result ≡ to + length (bytes_of (keyword_fields (spellings_from file.now 4 count 0))) }
    ensures out_after { out.new
        ≡ over to (bytes_of (keyword_fields (spellings_from file.now 4 count 0))) out.old }
{
    let mut at = FIRST_KEYWORD;
    let mut end = to;
    for _ in 0..count {
        end = put_field(tags::KEYWORD, &[], spelling_at(file, at, 0), out, end);
        at = next_at(file, at);
    }
    end
}

// Puts the fields of rules, named by a file's rule fields from an offset on, and says where they end.
fn put_rules(file: &[u8], first: usize, rules: &[u16], out: &mut [u8], to: usize) -> usize
    requires rules_value { right_spellings (spellings_from file.now first (length rules.now) 2) ≡ true }
    requires rules_in_bounds { to + length rules.now * 37 ≤ length out.old }
    ensures value { result
        ≡ to + length (bytes_of (rule_fields rules.now
        (spellings_from file.now first (length rules.now) 2))) }
    ensures out_after { out.new
        ≡ over to (bytes_of (rule_fields rules.now
        (spellings_from file.now first (length rules.now) 2))) out.old }
{
    let mut at = first;
    let mut end = to;
    for node in rules {
        let node_bytes = node.to_be_bytes();
        end = put_field(tags::RULE, &node_bytes, spelling_at(file, at, 2), out, end);
        at = next_at(file, at);
    }
    end
}

// Puts the fields of nodes from an index on, and says where they end.
fn put_nodes(nodes: &[u16], out: &mut [u8], to: usize) -> usize
    requires byte_words { ByteWords nodes.now }
    requires nodes_in_bounds { to + node_count nodes.now * 9 ≤ length out.old }
    ensures value { result ≡ to + length (bytes_of (node_fields nodes.now)) }
    ensures out_after { out.new ≡ over to (bytes_of (node_fields nodes.now)) out.old }
{
    let mut end = to;
    for n in 0..nodes.len() / 4 {
        let at = n * 4;
        let [a_high, a_low] = nodes[at + 1].to_be_bytes();
        let [b_high, b_low] = nodes[at + 2].to_be_bytes();
        let head = [nodes[at] as u8, a_high, a_low];
        let tail = [b_high, b_low, nodes[at + 3] as u8];
        end = put_field(tags::NODE, &head, &tail, out, end);
    }
    end
}

// Puts one field from an index on, its value in two parts, and says where it ends.
fn put_field(tag: u8, head: &[u8], tail: &[u8], out: &mut [u8], to: usize) -> usize
    requires tail_len_bound { length head.now + length tail.now < 65536 }
    requires tail_in_bounds { to + 3 + (length head.now + length tail.now) ≤ length out.old }
    ensures value { result ≡ to + length (field_bytes (field tag (head.now ++ tail.now))) }
    ensures out_after { out.new
        ≡ over to (field_bytes (field tag (head.now ++ tail.now))) out.old }
{
    let n = head.len() + tail.len();
    let [high, low] = (n as u16).to_be_bytes();
    let value = to + 3;
    put(&[tag, high, low], out, to);
    put(head, out, value);
    put(tail, out, value + head.len());
    value + n
}

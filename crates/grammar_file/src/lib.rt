// The grammar file reader: from the bytes of a grammar file to its table, its rules and its start (numbers 1 to 6).
#![tactic(auto)]

ghost use Rattle.std.specs.Prelude.{◌≡◌, length};
ghost use Rattle.table.specs.Answer.{afterwards};
ghost use Rattle.grammar_file.specs.File.{numbers, contents, fields_of, file_answer, KeywordsStand};
ghost use Rattle.grammar_file.specs.File.{read_answer, node_table, rule_list, keyword_bytes, name_bytes};
ghost use Rattle.file_shape.specs.Shape.{Parts};

use file_fields::{byte_in, offset_of, spelling_at, value_at};
pub use file_shape::{Contents, FIRST_KEYWORD};
use file_shape::{Shape, inspect};
use file_tables::{first_number, write_tables};
use table::Refusal;

// Writes the table and the rule list of a file that passes 1 to 6, and answers its counts and its start, or the first of
// these numbers that fails.
pub fn read(file: &[u8], nodes: &mut [u16], rules: &mut [u16]) -> Result<Contents, Refusal>
    ensures result_value { numbers result ≡ read_answer file.now (length nodes.old) (length rules.old) }
    ensures nodes_after { nodes.new
        ≡ afterwards (numbers result) (node_table (fields_of file.now)) nodes.old }
    ensures rules_after { rules.new
        ≡ afterwards (numbers result) (rule_list (fields_of file.now)) rules.old }
{
    let shape = inspect(file)?;
    write_tables(file, shape.nodes, shape.rules, nodes, rules)?;
    Ok(contents(file, shape))
}

// The counts and the start of a file that passes 1 to 5, or the first of these numbers that fails.
pub fn check(file: &[u8]) -> Result<Contents, Refusal>
    ensures result_value { numbers result ≡ file_answer file.now }
    ensures keywords_stand { KeywordsStand file.now result }
{
    let shape = inspect(file)?;
    Ok(contents(file, shape))
}

// The bytes of keyword k, as a part of the file; empty where the file fails 1 to 5 or has no such keyword.
pub fn keyword(file: &[u8], k: usize) -> &[u8]
    ensures { result.now ≡ keyword_bytes file.now k }
{
    match inspect(file) {
        Ok(shape) if k < shape.keywords => value_at(file, offset_of(file, FIRST_KEYWORD, k)),
        _ => &[],
    }
}

// The bytes of rule r's name, as a part of the file; empty where the file fails 1 to 5 or has no such rule.
pub fn rule_name(file: &[u8], r: usize) -> &[u8]
    ensures { result.now ≡ name_bytes file.now r }
{
    match inspect(file) {
        Ok(shape) if r < shape.rules.count => {
            spelling_at(file, offset_of(file, shape.rules.at, r), 2)
        }
        _ => &[],
    }
}

// The counts and the start of a file whose shape is known.
fn contents(file: &[u8], s: Shape) -> Contents
    requires { Parts file.now s }
    ensures { result ≡ contents (fields_of file.now) }
{
    let value = value_at(file, s.start);
    Contents {
        nodes: s.nodes.count,
        rules: s.rules.count,
        keywords: s.keywords,
        start: first_number(value),
        mode: u16::from(byte_in(value, 2)),
    }
}

// The table and the rule list that fields of a grammar file stand for: checked (numbers 3 to 5) and written.
#![tactic(auto)]

ghost use Rattle.std.specs.Prelude.{◌≡◌, ◌++◌, ◌+◌, ◌*◌, ◌≤◌, ◌<◌, true, false, MatchResult, length, get_or, drop};
ghost use Rattle.table.specs.Checks.{table_answer, numbers};
ghost use Rattle.file_tables.specs.Tables.{written, node_words, rule_nodes, lacks_room};
ghost use Rattle.file_fields.specs.Fields.{two_bytes};
ghost use Rattle.table.specs.declared.refusals.Refusal.TheVariants.{Room};

use file_fields::{Group, byte_in, next_at, value_at};
use table::Refusal;

// The two-byte number that a value begins with, high byte first.
pub fn first_number(value: &[u8]) -> u16
    ensures { result ≡ two_bytes (get_or value.now 0 0) (get_or value.now 1 0) }
{
    number_in(value, 0)
}

// Whether the node fields and the rule fields stand for a table, or the first of 3, 4 and 5 that fails.
#[tactic(auto, using(crate::proofs::TableLaws::many_nodes, crate::proofs::TableLaws::many_rules, crate::proofs::TableLaws::count_nodes, crate::proofs::TableLaws::length_nodes, crate::proofs::TableLaws::length_rules))]
pub fn check_tables(file: &[u8], nodes: Group, rules: Group) -> Result<(), Refusal>
    ensures { numbers result
        ≡ table_answer (node_words file.now nodes) (rule_nodes file.now rules) }
{
    if nodes.count > table::NODES || rules.count > table::RULES {
        return Err(Refusal::Counts);
    }
    let mut words = [0u16; table::NODES * 4]; // fixed arrays: there is no heap here
    let mut list = [0u16; table::RULES];
    write_nodes(file, nodes, &mut words);
    write_rules(file, rules, &mut list);
    table::check(&words[..nodes.count * 4], &list[..rules.count])
}

// Writes the table and the rules that fields stand for; where a slice is too short, nothing is written.
#[tactic(auto, using(crate::proofs::TableLaws::length_nodes, crate::proofs::TableLaws::length_rules), unfolding(crate::specs::Tables::too_short))]
pub fn write_tables(
    file: &[u8],
    nodes: Group,
    rules: Group,
    words: &mut [u16],
    list: &mut [u16],
) -> Result<(), Refusal>
    ensures value { MatchResult result
        (λ _. lacks_room file.now nodes rules words.old list.old ≡ false)
        (λ e. (e ≡ Room) × (lacks_room file.now nodes rules words.old list.old ≡ true)) }
    ensures nodes_after { words.new
        ≡ written (lacks_room file.now nodes rules words.old list.old) (node_words file.now nodes) words.old }
    ensures rules_after { list.new
        ≡ written (lacks_room file.now nodes rules words.old list.old) (rule_nodes file.now rules) list.old }
{
    if words.len() / 4 < nodes.count || list.len() < rules.count {
        return Err(Refusal::Room);
    }
    write_nodes(file, nodes, words);
    write_rules(file, rules, list);
    Ok(())
}

// Writes the words of node fields.
#[tactic(auto, unfolding(file_fields::specs::Offsets::fields_from, file_fields::specs::Offsets::offset_of, table::specs::Words::each_words))]
fn write_nodes(file: &[u8], nodes: Group, out: &mut [u16])
    requires { nodes.count * 4 ≤ length out.old }
    ensures { out.new
        ≡ node_words file.now nodes ++ drop (nodes.count * 4) out.old }
{
    let mut at = nodes.at;
    for i in 0..nodes.count {
        let value = value_at(file, at);
        let to = i * 4;
        out[to] = u16::from(byte_in(value, 0));
        out[to + 1] = number_in(value, 1);
        out[to + 2] = number_in(value, 3);
        out[to + 3] = u16::from(byte_in(value, 5));
        at = next_at(file, at);
    }
}

// Writes the nodes of rule fields.
#[tactic(auto, unfolding(file_fields::specs::Offsets::fields_from, file_fields::specs::Offsets::offset_of))]
fn write_rules(file: &[u8], rules: Group, out: &mut [u16])
    requires { rules.count ≤ length out.old }
    ensures { out.new
        ≡ rule_nodes file.now rules ++ drop rules.count out.old }
{
    let mut at = rules.at;
    for i in 0..rules.count {
        out[i] = number_in(value_at(file, at), 0);
        at = next_at(file, at);
    }
}

// The two-byte number at an index of a value, high byte first.
fn number_in(value: &[u8], i: usize) -> u16
    requires { i < 256 }
    ensures { result ≡ two_bytes (get_or value.now i 0) (get_or value.now (i + 1) 0) }
{
    u16::from_be_bytes([byte_in(value, i), byte_in(value, i + 1)])
}

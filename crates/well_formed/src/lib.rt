// Ford's well-formedness of a table: a verdict on a grammar before it runs (numbers 3, 4, 5 and 7).
#![tactic(auto)]

mod cells;
mod facts;
mod well;

ghost use Rattle.std.specs.Prelude.{◌≡◌, false, ℕ, ◌≤◌, get_or};
ghost use Rattle.table.specs.Answer.{given as passed};
ghost use Rattle.table.specs.Checks.{table_answer};
ghost use Rattle.table.specs.Form.{node_count};
ghost use Rattle.well_formed.specs.Check.{numbers, check_answer, Means, is_well, verdict_from};

use cells::Table;
use form_facts::Facts;
use table::Refusal;

// Whether a table and its rules pass, or what turns them down: the first of 3, 4 and 5 that fails, or the lowest node that
// is not well formed (7).
pub fn check(nodes: &[u16], rules: &[u16]) -> Result<(), Refusal>
    ensures result_value { numbers result ≡ check_answer nodes.now rules.now }
    ensures means { Means nodes.now rules.now (numbers result) }
{
    table::check(nodes, rules)?;
    judge(nodes, rules)
}

// The verdict on a table that passes 3, 4 and 5: the facts first, then the nodes that are well formed.
#[tactic(auto, using(table::proofs::Inside::counts_inside, crate::proofs::JudgeLaws::well_start, crate::proofs::JudgeLaws::judged))]
fn judge(nodes: &[u16], rules: &[u16]) -> Result<(), Refusal>
    requires { table_answer nodes.now rules.now ≡ passed tt }
    ensures { numbers result
        ≡ verdict_from (is_well nodes.now rules.now) 0 (node_count nodes.now) }
{
    let table = Table { nodes, rules };
    let mut cells = [Facts::default(); 512]; // fixed arrays: there is no heap here
    facts::find(&table, &mut cells);
    let mut found = [false; 512];
    well::find(&table, &cells, &mut found);
    lowest(nodes.len() / 4, &found)
}

// The lowest of so many nodes that is not among those found, or that the grammar passes.
#[tactic(auto, using(crate::proofs::VerdictLaws::verdict_next, crate::proofs::VerdictLaws::verdict_bad), unfolding(crate::specs::Check::verdict_from))]
fn lowest(count: usize, found: &[bool; 512]) -> Result<(), Refusal>
    requires { count ≤ 512 }
    ensures { numbers result ≡ verdict_from (λ (n : ℕ). get_or found.now n false) 0 count }
{
    for n in 0..count {
        let well = found[n];
        if !well {
            return Err(Refusal::IllFormed(n as u16));
        }
    }
    Ok(())
}

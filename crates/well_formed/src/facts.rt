// The facts of each node, found in passes over the table.
ghost use Rattle.std.specs.Prelude.{◌≡◌, ◌<◌, ◌||◌};
ghost use Rattle.table.specs.Form.{form, node_count};
ghost use Rattle.well_formed.specs.Facts.{Fact};
ghost use Rattle.well_formed.specs.Rounds.{gives as gives-by};
ghost use Rattle.form_facts.specs.OneForm.{fact_of};
ghost use Rattle.well_formed.specs.InternalPasses.{known, FactsReady, FactsPass, FactsFinished};

use crate::cells::{Table, cell, node_at};
use form_facts::{Facts, facts_by_form};

// Every fact of every node: passes until one finds nothing.
#[tactic(auto, using(crate::proofs::PassLaws::last_pass))]
pub(crate) fn find(table: &Table, cells: &mut [Facts])
    requires { FactsReady table.now.nodes.now table.now.rules.now cells.old }
    ensures { FactsFinished table.now.nodes.now table.now.rules.now cells.new }
{
    while pass(table, cells) {}
}

// One pass: what each node gives by its rules joins what is known. Whether a fact was found.
fn pass(table: &Table, cells: &mut [Facts]) -> bool
    requires { FactsReady table.now.nodes.now table.now.rules.now cells.old }
    ensures { FactsPass table.now.nodes.now table.now.rules.now (node_count table.now.nodes.now) cells.old cells.new result }
{
    let mut found = false;
    for n in 0..table.nodes.len() / 4 {
        let old = cells[n];
        let new = gives(table, cells, n);
        let now = joined(old, new);
        if now != old {
            cells[n] = now;
            found = true;
        }
    }
    found
}

// What node n gives by its rules, from what is known of its children.
fn gives(table: &Table, cells: &[Facts], n: usize) -> Facts
    requires { «n» < node_count table.now.nodes.now }
    ensures { (x : Fact)
        → fact_of result x ≡ gives-by table.now.rules.now (known cells.now) (form table.now.nodes.now «n») x }
{
    let node = node_at(table, n);
    let first = cell(cells, node.first, Facts::default());
    let second = cell(cells, node.second, Facts::default());
    facts_by_form(node.kind, first, second)
}

// The facts that are among these or those.
fn joined(these: Facts, those: Facts) -> Facts
    ensures { (x : Fact) → fact_of result x ≡ (fact_of these x || fact_of those x) }
{
    Facts {
        nothing: these.nothing | those.nothing,
        something: these.something | those.something,
        fails: these.fails | those.fails,
    }
}

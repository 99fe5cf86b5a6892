// The nodes that are well formed, found in passes over the table.
ghost use Rattle.std.specs.Prelude.{◌≡◌, false, ℕ, ◌<◌, get_or};
ghost use Rattle.table.specs.Form.{form, node_count};
ghost use Rattle.well_formed.specs.Facts.{nothing};
ghost use Rattle.well_formed.specs.Rounds.{passes as passes-by};
ghost use Rattle.well_formed.specs.InternalPasses.{known, WellReady, WellPass, WellFinished};

use crate::cells::{Table, cell, node_at};
use form_facts::{Facts, well_by_form};

// Every well-formed node: passes until one finds none. The facts of each node are known.
pub(crate) fn find(table: &Table, cells: &[Facts], well: &mut [bool])
    requires { WellReady table.now.nodes.now table.now.rules.now cells.now well.old }
    ensures { WellFinished table.now.nodes.now table.now.rules.now cells.now well.new }
{
    while pass(table, cells, well) {}
}

// One pass: the nodes that pass by their rules join those found. Whether a node was found.
fn pass(table: &Table, cells: &[Facts], well: &mut [bool]) -> bool
    requires { WellReady table.now.nodes.now table.now.rules.now cells.now well.old }
    ensures { WellPass table.now.nodes.now table.now.rules.now cells.now (node_count table.now.nodes.now) well.old well.new result }
{
    let mut found = false;
    for n in 0..table.nodes.len() / 4 {
        if !well[n] && passes(table, cells, well, n) {
            well[n] = true;
            found = true;
        }
    }
    found
}

// Whether node n passes by its rules, from which of its children are found.
fn passes(table: &Table, cells: &[Facts], well: &[bool], n: usize) -> bool
    requires { «n» < node_count table.now.nodes.now }
    ensures { result
        ≡ passes-by table.now.rules.now (known cells.now nothing) (λ (m : ℕ). get_or well.now m false)
        (form table.now.nodes.now «n») }
{
    let node = node_at(table, n);
    let facts = cell(cells, node.first, Facts::default());
    let first = cell(well, node.first, false);
    let second = cell(well, node.second, false);
    well_by_form(node.kind, first, facts.nothing, second)
}

// A node with the children that it asks, and a value for each node.
ghost use Rattle.std.specs.Prelude.{◌≡◌, ◌<◌, get_or};
ghost use Rattle.table.specs.Form.{kind_of, a_of, b_of, node_count};
ghost use Rattle.well_formed.specs.InternalPasses.{first_child};

use table::Kind;

// A node: its kind, the node that it asks first, and b.
#[derive(Clone, Copy)]
pub(crate) struct Node {
    pub(crate) kind: u16,
    pub(crate) first: usize,
    pub(crate) second: usize,
}

// A table that is checked, and its rules.
#[derive(Clone, Copy)]
pub(crate) struct Table<'a> {
    pub(crate) nodes: &'a [u16],
    pub(crate) rules: &'a [u16],
}

// Node n of a table. A rule asks its node first, every other form a.
pub(crate) fn node_at(table: &Table, n: usize) -> Node
    requires { «n» < node_count table.now.nodes.now }
    ensures kind { result.kind ≡ kind_of table.now.nodes.now «n» }
    ensures first { result.first ≡ first_child table.now.rules.now (kind_of table.now.nodes.now «n») (a_of table.now.nodes.now «n») }
    ensures second { result.second ≡ b_of table.now.nodes.now «n» }
{
    let at = n * 4;
    let kind = table.nodes[at];
    let a = table.nodes[at + 1] as usize;
    let first = if Kind::try_from(kind) == Ok(Kind::Rule) {
        cell(table.rules, a, 0) as usize
    } else {
        a
    };
    Node {
        kind,
        first,
        second: table.nodes[at + 2] as usize,
    }
}

// A node's cell; past the cells the value given.
pub(crate) fn cell<T: Copy>(cells: &[T], n: usize, past: T) -> T
    ensures { result ≡ get_or cells.now «n» past }
{
    cells.get(n).copied().unwrap_or(past)
}

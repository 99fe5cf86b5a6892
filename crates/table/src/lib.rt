// The grammar table: its limits and those of tokens, and whether two lent slices of words are a table and its rules
// (numbers 3, 4 and 5).
#![tactic(auto)]

ghost use Rattle.std.specs.Prelude.{◌≡◌};
ghost use Rattle.table.specs.Checks.{numbers, table_answer, right_words, fails3, fails4, fails5};

pub mod kinds;
pub mod refusals;
pub mod relations;
pub mod terminals;

pub use kinds::Kind;
pub use refusals::Refusal;

// The most nodes and rules of a table.
pub const NODES: usize = 512;

pub const RULES: usize = 128;

// The last terminal.
pub const LAST_TERMINAL: u16 = 255;

// How many relations, and token modes, there are.
pub const RELATIONS: u16 = 35;

// The most tokens, and the last column of one.
pub const TOKENS: usize = 4096;

pub const LAST_COLUMN: u32 = 65535;

// Whether node words and rules are a table, or the first of 3, 4 and 5 that fails. The two stay parameters of their own in
// all that users call, as C lends them.
#[tactic(auto, unfolding(crate::specs::Checks::table_answer))]
pub fn check(nodes: &[u16], rules: &[u16]) -> Result<(), Refusal>
    ensures { numbers result ≡ table_answer nodes.now rules.now }
{
    if counts_wrong(nodes, rules) {
        return Err(Refusal::Counts);
    }
    if node_wrong(nodes, rules) {
        return Err(Refusal::Node);
    }
    if rule_wrong(nodes, rules) {
        return Err(Refusal::Rule);
    }
    Ok(())
}

// Number 3: node words no multiple of 4, or a count outside the limits.
#[tactic(auto, unfolding(crate::specs::Checks::fails3))]
fn counts_wrong(nodes: &[u16], rules: &[u16]) -> bool
    ensures { result ≡ fails3 nodes.now rules.now }
{
    let count = nodes.len() / 4;
    nodes.len() % 4 != 0 || count < 1 || count > NODES || rules.len() > RULES
}

// Number 4: some node's words are not right.
#[tactic(auto, using(crate::proofs::Every::every_more, crate::proofs::Every::every_fails), unfolding(crate::specs::Checks::fails4, crate::specs::Every::every))]
fn node_wrong(nodes: &[u16], rules: &[u16]) -> bool
    ensures { result ≡ fails4 nodes.now rules.now }
{
    for n in 0..nodes.len() / 4 {
        let at = n * 4;
        if !words_right(
            rules.len(),
            n,
            nodes[at],
            nodes[at + 1],
            nodes[at + 2],
            nodes[at + 3],
        ) {
            return true;
        }
    }
    false
}

// Number 4, for node n: a kind's own words are in range, and the others are 0.
#[tactic(auto, unfolding(crate::specs::Checks::right_words))]
fn words_right(rules: usize, n: usize, kind: u16, a: u16, b: u16, relation: u16) -> bool
    ensures { result ≡ right_words rules n kind a b relation }
{
    let first = (a as usize) < n;
    let second = (b as usize) < n;
    match Kind::try_from(kind) {
        Ok(Kind::Empty) => a == 0 && b == 0 && relation == 0,
        Ok(Kind::Terminal) => a <= LAST_TERMINAL && b == 0 && relation == 0,
        Ok(Kind::Rule) => (a as usize) < rules && b == 0 && relation == 0,
        Ok(Kind::Sequence) => first && second && relation == 0,
        Ok(Kind::Choice) => first && second && relation == 0,
        Ok(Kind::Not) => first && b == 0 && relation == 0,
        Ok(Kind::Repeat) => first && b == 0 && relation == 0,
        Ok(Kind::Indent) => first && b == 0 && relation < RELATIONS,
        Ok(Kind::Position) => first && b == 0 && relation < RELATIONS,
        Ok(Kind::Align) => first && b == 0 && relation == 0,
        Err(_) => false,
    }
}

// Number 5: some rule's node is not in the table.
#[tactic(auto, using(crate::proofs::Every::every_more, crate::proofs::Every::every_fails), unfolding(crate::specs::Checks::fails5, crate::specs::Every::every))]
fn rule_wrong(nodes: &[u16], rules: &[u16]) -> bool
    ensures { result ≡ fails5 nodes.now rules.now }
{
    let count = nodes.len() / 4;
    for node in rules {
        if *node as usize >= count {
            return true;
        }
    }
    false
}

// Runs of a stored table that are lent words to remember in: what these hold before, and whether they still do.
ghost use Rattle.std.specs.Prelude.{◌≡◌, length};
ghost use Rattle.table.specs.Words.{tabulate};
ghost use Rattle.stored_cases.specs.Numbers.{first_pairs, first_quads, quads};
ghost use Rattle.stored_runs.specs.Remembered.{slot_word, lent_word, holds, Remembers, StoredRemembers};

use columns::{Reading, Start};
use interpreter::Ran;
use stored_cases::{NODE_WORDS, RULE_WORDS, TOKEN_WORDS, load, zeros};
use table::Refusal;

// A word of what looks like slots that remember an outcome of a node: 1 for a failure, 2 for a success. They are for mode
// equal, place 0, from 0 without end, flag clear, and the success leaves that state.
#[tactic(auto, unfolding(crate::specs::Remembered::slot_word))]
fn slot_word(outcome: u32, node: u32, i: usize) -> u32
    ensures { result ≡ slot_word outcome node i }
{
    let slot = [node, 0u32, 0, 2, 0, 0, outcome, 0, 0, 2, 0, 0];
    slot[i % 12]
}

// What a lent word holds before a run, by the number of the contents: 0, ones in all bits, numbers from 0 to 511, slots of
// failures of a node, slots of its successes.
#[tactic(auto, unfolding(crate::specs::Remembered::lent_word))]
fn lent_word(contents: usize, node: u32, i: usize) -> u32
    ensures { result ≡ lent_word contents node i }
{
    match contents {
        0 => 0,
        1 => 4294967295,
        2 => (i % 512) as u32,
        3 => slot_word(1, node, i),
        _ => slot_word(2, node, i),
    }
}

// Sets the words to such contents.
pub fn lend(words: &mut [u32], contents: usize, node: u32)
    ensures { words.new ≡ tabulate (length words.old) (lent_word contents node) }
{
    for (i, word) in words.iter_mut().enumerate() {
        *word = lent_word(contents, node, i);
    }
}

// Whether the words have such contents.
pub fn kept(words: &[u32], contents: usize, node: u32) -> bool
    ensures { result ≡ holds (lent_word contents node) 0 words.now }
{
    for (i, word) in words.iter().enumerate() {
        if *word != lent_word(contents, node, i) {
            return false;
        }
    }
    true
}

// Runs a stored table over stored tokens with words lent to remember in. The limits are those of `run_stored`.
pub fn remember_stored(
    nodes: &[u8],
    rules: &[u8],
    tokens: &[u8],
    start: Start,
    reading: Reading,
    memory: &mut [u32],
) -> Result<Ran, Refusal>
    ensures { StoredRemembers reading nodes.now rules.now (quads 16500 tokens.now) start
        memory.old result memory.new }
{
    let mut node_words = zeros::<u16, NODE_WORDS>();
    let mut rule_words = zeros::<u16, RULE_WORDS>();
    let mut token_words = zeros::<u32, TOKEN_WORDS>();
    let x = (nodes.len() / 2).min(NODE_WORDS);
    let y = (rules.len() / 2).min(RULE_WORDS);
    let z = (tokens.len() / 4).min(TOKEN_WORDS);
    remember_in(
        nodes,
        rules,
        tokens,
        start,
        reading,
        &mut node_words[0..x],
        &mut rule_words[0..y],
        &mut token_words[0..z],
        memory,
    )
}

// Runs a stored table over stored tokens in the words lent for them.
fn remember_in(
    nodes: &[u8],
    rules: &[u8],
    tokens: &[u8],
    start: Start,
    reading: Reading,
    first: &mut [u16],
    second: &mut [u16],
    words: &mut [u32],
    memory: &mut [u32],
) -> Result<Ran, Refusal>
    ensures { Remembers reading (first_pairs (length first.old) nodes.now)
        (first_pairs (length second.old) rules.now)
        (first_quads (length words.old) tokens.now) start memory.old result memory.new }
{
    load(nodes, first);
    load(rules, second);
    load(tokens, words);
    interpreter::remember(first, second, words, start, reading, memory)
}

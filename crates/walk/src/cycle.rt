// The expression walk and the rule walk, which call each other, with the state and the outcome by value. What comes last in
// a node, as a sequence's second part or a repeat's next round, is the loop's next turn; the first child of every other form
// is walked by one call, or by none if it is a terminal. So a nested call needs little of the stack.
//
// An indent that does not count by the reading is walked as one by equal. Captures go into a lent list, with the counts of
// those around and those so far: a failure may leave the second too high, and the walk of a first child puts it back. The
// farthest place is never put back. Once the count has stopped nothing is listed: so from the start in a run without a list,
// and inside a not.
//
// A nested call of a first child is remembered in a lent slice: its outcome is looked up before and kept after it. It begins as
// if nothing was tried, so that the outcome does not hang on the farthest place before, which is joined to it afterwards.
ghost use Rattle.std.specs.Prelude.{◌≡◌, ◌+◌};
ghost use Rattle.table.specs.Form.{form, stands_for, rule as rule_form};
ghost use Rattle.capture_list.specs.InternalList.{Room};
ghost use Rattle.walk.specs.InternalWalk.{child_state, first_node, weight, Ready, ReadyFirst, ReadyRule};
ghost use Rattle.walk.specs.InternalWalk.{Walked, WalkedFirst};
ghost use Rattle.walk.specs.InternalRemembering.{Remembering};

use crate::remembering::{pays, recall, remember};
use crate::states::{anew, entered, joined, token, untried};
use after_child::{aligned, failed, left};
use capture_list::{Counts, hush, more, put, puts_back};
use columns::{Capture, Outcome, Reading, State};
use readings::in_force;
use table::Kind;

// What a walk goes over, and the reading that it goes by: handed on by one reference, a nested call needs less of the stack.
// What is lent to it stands apart, since the functions below a nested call take a list, words to remember in or counts alone.
#[derive(Clone, Copy)]
pub(crate) struct Input<'a> {
    pub(crate) nodes: &'a [u16],
    pub(crate) rules: &'a [u16],
    pub(crate) tokens: &'a [u32],
    pub(crate) reading: Reading,
}

// The outcome of a node in a mode from a state.
#[cycle(expression_first_rule)]
pub(crate) fn expression(
    input: &Input,
    list: &mut [u32],
    memory: &mut [u32],
    mut mode: u16,
    mut node: u16,
    counts: &mut Counts,
    mut s: State,
) -> Outcome
    requires ready { Ready input.now.nodes.now input.now.rules.now input.now.tokens.now node s }
    requires room { Room (weight input.now.nodes.now input.now.rules.now input.now.tokens.now node s) counts.old list.old }
    requires remembering { Remembering input.now.reading input.now.nodes.now input.now.rules.now input.now.tokens.now memory.old }
    ensures walked { Walked input.now.reading input.now.nodes.now input.now.rules.now input.now.tokens.now mode
        (form input.now.nodes.now node) s counts.old list.old result
        counts.new list.new }
    ensures remembering_2 { Remembering input.now.reading input.now.nodes.now input.now.rules.now input.now.tokens.now memory.new }
{
    loop {
        let at = (node as usize) * 4;
        let Ok(kind) = Kind::try_from(input.nodes[at]) else {
            unreachable!()
        };
        let a = input.nodes[at + 1];
        let b = input.nodes[at + 2];
        let r = input.nodes[at + 3];
        match kind {
            Kind::Empty => return Outcome::Success(s),
            Kind::Rule => {
                let again = anew(s);
                return rule(input, list, memory, mode, a, counts, again);
            }
            Kind::Position => {
                mode = r;
                node = a;
            }
            _ => {
                let c = first_node(kind, node, a);
                let x = first(input, list, memory, mode, c, counts, kind, r, s);
                match x {
                    Outcome::Failure(farthest) => {
                        let back = failed(s, farthest);
                        match kind {
                            Kind::Choice => {
                                s = back;
                                node = b;
                            }
                            Kind::Not | Kind::Repeat => return Outcome::Success(back),
                            _ => return Outcome::Failure(farthest),
                        }
                    }
                    Outcome::Success(u) => {
                        match kind {
                            Kind::Terminal => return Outcome::Success(u),
                            Kind::Sequence => {
                                s = u;
                                node = b;
                            }
                            Kind::Choice => { // the first alternative
                                return Outcome::Success(u);
                            }
                            Kind::Not => {
                                return Outcome::Failure(u.farthest); // a not of what succeeds
                            }
                            Kind::Repeat => { // a round was read
                                s = u; // the next round
                            }
                            Kind::Indent => {
                                let q = in_force(input.reading, s.flag, r);
                                let v = left(q, s, u);
                                return Outcome::Success(v);
                            }
                            _ => {
                                let v = aligned(input.reading, s, u);
                                return Outcome::Success(v);
                            }
                        }
                    }
                }
            }
        }
    }
}

// The node that is walked first: a terminal's own, else the first child.
fn first_node(kind: Kind, node: u16, a: u16) -> u16
    ensures { result ≡ first_node kind node a }
{
    match kind {
        Kind::Terminal => node,
        _ => a,
    }
}

// The outcome of the node that is walked first in a node of a kind: a terminal needs no nested call, and is read in this
// place only, so that its functions are compiled into the walk. The count of captures is put back where it is to be. The state
// that an outcome is kept for is made anew behind the call, since to hold it over the call would take stack and time.
#[cycle(expression_first_rule)]
fn first(
    input: &Input,
    list: &mut [u32],
    memory: &mut [u32],
    mode: u16,
    node: u16,
    counts: &mut Counts,
    kind: Kind,
    r: u16,
    s: State,
) -> Outcome
    requires ready_first { ReadyFirst input.now.reading input.now.nodes.now input.now.rules.now input.now.tokens.now node kind r s }
    requires room { Room (weight input.now.nodes.now input.now.rules.now input.now.tokens.now node (child_state input.now.reading kind r s)) counts.old list.old }
    requires remembering { Remembering input.now.reading input.now.nodes.now input.now.rules.now input.now.tokens.now memory.old }
    ensures walked_first { WalkedFirst kind input.now.reading input.now.nodes.now input.now.rules.now input.now.tokens.now mode
        (form input.now.nodes.now node) (child_state input.now.reading kind r s) counts.old list.old result
        counts.new list.new }
    ensures remembering_2 { Remembering input.now.reading input.now.nodes.now input.now.rules.now input.now.tokens.now memory.new }
{
    let at = (node as usize) * 4;
    let Ok(own_kind) = Kind::try_from(input.nodes[at]) else {
        unreachable!()
    };
    let here = entered(input.reading, kind, r, s);
    if let Kind::Terminal = own_kind {
        return token(input.tokens, input.nodes[at + 1], mode, here);
    }
    let inside = untried(here);
    let count = counts.so_far;
    let remembers = pays(memory, own_kind);
    if remembers && let Some(x) = recall(memory, kind, node, mode, here, count) {
        return joined(here.farthest, x);
    }
    hush(counts, kind as u16);
    let y = expression(input, list, memory, mode, node, counts, inside);
    if remembers {
        let there = entered(input.reading, kind, r, s);
        remember(memory, kind, node, mode, there, count, y);
    }
    let x = joined(here.farthest, y);
    if puts_back(kind as u16, x) {
        counts.so_far = count;
    }
    x
}

// The outcome of a rule: that of its node. Its place in the list comes before those inside it.
#[cycle(expression_first_rule)]
fn rule(
    input: &Input,
    list: &mut [u32],
    memory: &mut [u32],
    mode: u16,
    x: u16,
    counts: &mut Counts,
    s: State,
) -> Outcome
    requires ready_rule { ReadyRule input.now.nodes.now input.now.rules.now input.now.tokens.now x s }
    requires room { Room (weight input.now.nodes.now input.now.rules.now input.now.tokens.now (stands_for input.now.rules.now x) s + 1) counts.old list.old }
    requires remembering { Remembering input.now.reading input.now.nodes.now input.now.rules.now input.now.tokens.now memory.old }
    ensures walked { Walked input.now.reading input.now.nodes.now input.now.rules.now input.now.tokens.now mode (rule_form x) s
        counts.old list.old result counts.new list.new }
    ensures remembering_2 { Remembering input.now.reading input.now.nodes.now input.now.rules.now input.now.tokens.now memory.new }
{
    let i = x as usize;
    let node = input.rules[i];
    let first = s.place;
    let Counts { around, so_far: n } = *counts;
    let inside = around + 1;
    *counts = Counts {
        around: inside,
        so_far: more(n),
    };
    let o = expression(input, list, memory, mode, node, counts, s);
    counts.around = around;
    match o {
        Outcome::Failure(farthest) => Outcome::Failure(farthest),
        Outcome::Success(u) => {
            let c = Capture {
                rule: x as u32,
                first,
                after: u.place,
                around: around as u32,
            };
            put(list, n, c);
            Outcome::Success(u)
        }
    }
}

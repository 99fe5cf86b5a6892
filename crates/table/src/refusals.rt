// Why a call is turned down (01, "Turned-down calls"; 13 and 14: 02, Note 2; 15: Note 4; 16: Note 5).
ghost use Rattle.std.specs.Prelude.{◌≡◌};
ghost use Rattle.table.specs.Refusals.{number_of};

// A check that fails, by what it looks at: in the order of their numbers.
#[derive(Clone, Copy, Debug, PartialEq, Eq)]
pub enum Refusal {
    // The grammar file: its length, fields, tags and number of keywords.
    Fields,
    // A keyword or a name breaks its rules.
    Spelling,
    // The counts of node words, nodes or rules.
    Counts,
    // A node's words.
    Node,
    // A rule's node, or a file's start.
    Rule,
    // A lent slice is too short for the table or its rules, or for the written file.
    Room,
    // The lowest node that is not well formed.
    IllFormed(u16),
    // The report: its length, or a refused byte.
    Report,
    // A token's column.
    Column,
    // Too many tokens, or too few words lent for them.
    TokenRoom,
    // The lent tokens.
    Tokens,
    // The start of a run.
    Start,
    // Fewer capture places than the list needs.
    CaptureRoom,
    // The capture that a text is shown for.
    Capture,
    // The rule count differs from that of the file that lends the names.
    RuleCount,
    // A grammar or a mode that the reading of 2014 does not have.
    Reading,
}

impl Refusal {
    // The number of the check, from 1.
    pub fn number(self) -> u8
        ensures { result ≡ number_of self }
    {
        match self {
            Refusal::Fields => 1,
            Refusal::Spelling => 2,
            Refusal::Counts => 3,
            Refusal::Node => 4,
            Refusal::Rule => 5,
            Refusal::Room => 6,
            Refusal::IllFormed(_) => 7,
            Refusal::Report => 8,
            Refusal::Column => 9,
            Refusal::TokenRoom => 10,
            Refusal::Tokens => 11,
            Refusal::Start => 12,
            Refusal::CaptureRoom => 13,
            Refusal::Capture => 14,
            Refusal::RuleCount => 15,
            Refusal::Reading => 16,
        }
    }
}

// The kinds of nodes (01, "The grammar table").
ghost use Rattle.table.specs.Kinds.{KindOf};

#[derive(Clone, Copy, Debug, PartialEq, Eq)]
pub enum Kind {
    Empty,
    Terminal,
    Rule,
    Sequence,
    Choice,
    Not,
    Repeat,
    Indent,
    Position,
    Align,
}

// A word that stands for no kind.
#[derive(Clone, Copy, Debug, PartialEq, Eq)]
pub struct NoKind;

impl TryFrom<u16> for Kind {
    type Error = NoKind;

    ghost try_from_gives = { KindOf };

    fn try_from(word: u16) -> Result<Kind, NoKind> {
        match word {
            0 => Ok(Kind::Empty),
            1 => Ok(Kind::Terminal),
            2 => Ok(Kind::Rule),
            3 => Ok(Kind::Sequence),
            4 => Ok(Kind::Choice),
            5 => Ok(Kind::Not),
            6 => Ok(Kind::Repeat),
            7 => Ok(Kind::Indent),
            8 => Ok(Kind::Position),
            9 => Ok(Kind::Align),
            _ => Err(NoKind),
        }
    }
}

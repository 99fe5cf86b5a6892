// The relations, which are token modes too (01, "The grammar table"). The numbers over these four are steps (02, note 1).
// They stay numbers, as C lends them in node words: of 35 relations four have names.
pub const EQUAL: u16 = 0;

pub const GREATER: u16 = 1;

pub const AT_LEAST: u16 = 2;

pub const ANY: u16 = 3;

// The tags of fields (01, "The grammar file"). They stay numbers: a field's tag may be any byte, and `right_at` takes any.
pub const FORMAT: u8 = 1;

pub const KEYWORD: u8 = 2;

pub const RULE: u8 = 3;

pub const NODE: u8 = 4;

pub const START: u8 = 5;

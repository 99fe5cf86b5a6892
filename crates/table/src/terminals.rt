// The terminals of tokens (01, "The scanner"). They stay numbers, as C is handed them in token words: a keyword's is 3 and its own.

// A number.
pub const NUMBER: u32 = 0;

// A spelling that is neither a keyword nor a number.
pub const WORD: u32 = 1;

// The end of a line.
pub const LINE_END: u32 = 2;

// Keyword 0; the other keywords follow in their order.
pub const FIRST_KEYWORD: u32 = 3;

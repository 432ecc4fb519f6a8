// The limits of books, lines and batches, and the sizes of lists that follow from them. `specs/Limits` has the same figures for contracts.

// How many bytes a book has at most, and how many basic types, entries and targets.
pub const MAX_BOOK: usize = 65535;

pub const MAX_TYPES: usize = 64;

pub const MAX_ENTRIES: usize = 1024;

pub const MAX_TARGETS: usize = 8;

// How many bytes a name and a word have at most, and how many simple types an entry.
pub const MAX_NAME: usize = 15;

pub const MAX_WORD: usize = 31;

pub const MAX_ENTRY_SIMPLES: usize = 12;

// How far brackets in a text may be open.
pub const MAX_DEPTH: usize = 6;

// How many simple types a text has at most whose brackets are not too deep: twice as many with every bracket.
pub const MAX_TEXT_SIMPLES: usize = 128;

// The greatest exponent of a book; its negative is the least.
pub const MAX_EXPONENT: u8 = 8;

// How many words a line has at most, and how many simple types all entries of its words have together.
pub const MAX_WORDS: usize = 24;

pub const MAX_LINE_SIMPLES: usize = 512;

// How many simple types a choice has at most, and how many with a target behind it.
pub const MAX_STRING: usize = MAX_WORDS * MAX_ENTRY_SIMPLES;

pub const MAX_PLACES: usize = MAX_STRING + 1;

// How many values an answer has beside entries and partners: the target's number, the number of words and that of simple types.
pub const ANSWER_HEAD: usize = 3;

// How many values an answer has at most: its head, an entry for each word, a partner for each simple type.
pub const MAX_VALUES: usize = ANSWER_HEAD + MAX_WORDS + MAX_STRING;

// How many bytes and how many lines a batch has at most.
pub const MAX_BATCH: usize = 65535;

pub const MAX_LINES: usize = 32;

// How many values a line of a batch takes at most, with the two before its answer, and how many all of its lines.
pub const MAX_PART: usize = 2 + MAX_VALUES;

pub const MAX_BATCH_VALUES: usize = MAX_LINES * MAX_PART;

// How many nodes a line's graph has at most: a boundary for each word and one behind the last, the simple types, and two for each target.
pub const MAX_NODES: usize = MAX_WORDS + MAX_LINE_SIMPLES + 1 + 2 * MAX_TARGETS;

// How many words of 64 bits a set of nodes takes, and how many members it has room for.
pub const ROW_WORDS: usize = (MAX_NODES + 63) / 64;

pub const ROW_BITS: usize = 64 * ROW_WORDS;

// How many words the rows of all nodes take, and those of all places of a string and of the one behind the last.
pub const CHART_WORDS: usize = MAX_NODES * ROW_WORDS;

pub const TABLE_WORDS: usize = (MAX_PLACES + 1) * ROW_WORDS;

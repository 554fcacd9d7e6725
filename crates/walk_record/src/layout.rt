// Where each number of a walk's record stands; the stack's, root and leaf of each entry, are the last.
pub const IMAGE_LEN: usize = 0;

pub const ROOT: usize = 1;

pub const LEAF: usize = 2;

pub const POSITION: usize = 3;

pub const OFFSET: usize = 4;

pub const LEN: usize = 5;

pub const IKEY: usize = 6;

pub const DEPTH: usize = 7;

pub const KIND: usize = 8;

pub const BOUND_LEN: usize = 9;

pub const STATE: usize = 10;

pub const MODE: usize = 11;

pub const LAST_DEPTH: usize = 12;

pub const COUNT: usize = 13;

pub const STACK: usize = 14;

pub const NUMBERS: usize = 76;

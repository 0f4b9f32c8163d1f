// Where each field of a training file stands: the one place for offsets and lengths, for whoever reads or writes one.

// The header, in bytes from the file's start.
pub const RECORDS_STORED: usize = 0;

pub const FIRST_RECORD: usize = 2;

pub const FEATURES_IN_USE: usize = 4;

pub const KERNEL: usize = 5;

pub const SPARE: usize = 6;

pub const GRID: usize = 8;

pub const CEILING: usize = 12;

pub const TOLERANCE: usize = 16;

pub const BUDGET: usize = 24;

pub const SECOND_CEILING: usize = 28;

pub const HEADER_LENGTH: usize = 32;

// A record, in bytes from the record's start.
pub const NEXT: usize = 0;

pub const LABEL: usize = 2;

pub const ZERO: usize = 3;

pub const FEATURES: usize = 4;

pub const RECORD_LENGTH: usize = 20;

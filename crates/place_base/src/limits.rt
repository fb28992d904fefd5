// The limits of the files, and the bytes that cut them, by name.

/// The most data rows of a programmes file.
pub const MOST_PROGRAMMES: u32 = 60_000;

/// The most data rows of a candidates file, and of a placement file.
pub const MOST_CANDIDATES: u32 = 3_500_000;

/// The most data rows of a registrations file.
pub const MOST_REQUESTS: u32 = 3_500_000;

/// The most data rows of a ranks file.
pub const MOST_RANKS: u32 = 20_000_000;

/// The most score types that a programmes file names.
pub const MOST_TYPES: usize = 16;

/// The most entries of a preference list.
pub const MOST_ENTRIES: usize = 24;

/// The largest number of a candidate; the least is 1.
pub const LARGEST_NUMBER: u64 = 99_999_999_999;

/// The largest code of a programme; the least is 1.
pub const LARGEST_CODE: u64 = 999_999_999;

/// The largest quota, in seats; the least is 0.
pub const LARGEST_QUOTA: u64 = 100_000;

/// The largest rank; the least is 1.
pub const LARGEST_RANK: u64 = 99_999_999;

/// The longest name of a score type, in bytes.
pub const LONGEST_NAME: usize = 8;

/// The longest line of a file, in bytes, without its end.
pub const LONGEST_LINE: usize = 1_024;

/// The largest file, in bytes: 2^30.
pub const LARGEST_FILE: usize = 1 << 30;

/// The most parts in which a file may be read.
pub const MOST_PIECES: u32 = 64;

/// What ends a line.
pub const LF: u8 = b'\n';

/// What a line may have before its end, and loses.
pub const CR: u8 = b'\r';

/// What stands between the fields of a row.
pub const COMMA: u8 = b',';

/// What stands between the entries of a list.
pub const SEMICOLON: u8 = b';';

/// The byte order mark of UTF-8, which a file may begin with.
pub const BYTE_ORDER_MARK: [u8; 3] = [0xEF, 0xBB, 0xBF];

// The counts that document 01 allows, where more than one operation looks at them.

// Bounds in one batch, 1 to 16.
pub const MAX_BATCH: usize = 16;

// Records, 0 to 16,384.
pub const MAX_RECORDS: usize = 16384;

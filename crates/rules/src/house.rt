// The house numbers, each once. specs/House.antt has the same.

// The number of classes.
pub const CLASSES: usize = 12;

// A column has an entry for each class, and one for class 0, which is unused.
pub const COLUMN: usize = CLASSES + 1;

// The starts of the regions, and their end.
pub const STARTS: usize = CLASSES + 2;

// A buffer is one part in SHARE of its payload.
pub const SHARE: u64 = 4;

// The longest length of an object.
pub const LONGEST: u32 = 4095;

// The same, as the length of an array.
pub const LONGEST_PAGE: usize = LONGEST as usize;

// The most objects that live at once.
pub const OBJECTS: usize = 256;

// The least length of an area.
pub const LEAST_AREA: usize = 16384;

// The most.
pub const MOST_AREA: usize = 65536;

// The greatest name.
pub const MOST_NAME: u32 = 65535;

// The bytes of a map before its entries.
pub const HEAD: usize = 7;

// The bytes of an entry.
pub const ENTRY: usize = 6;

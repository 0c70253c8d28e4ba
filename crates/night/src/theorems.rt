// Theorems about nights and their bytes: each function promises one, and does nothing.
ghost use Rattle.night.specs.Theorems.{ReadsBack, WritesBack, RowBits, Within, OneRefusal, Small};

// Reading the bytes of a night gives the night back.
pub fn reads_back()
    ensures { ReadsBack }
{}

// Writing what was read gives the bytes back.
pub fn writes_back()
    ensures { WritesBack }
{}

// Bit i of a row is hour i.
pub fn row_bits()
    ensures { RowBits }
{}

// The hours of a task of a night are hours of the night.
pub fn within()
    ensures { Within }
{}

// Bytes that are no night have one refusal.
pub fn one_refusal()
    ensures { OneRefusal }
{}

// No sum of units, times the hours, passes 2^63.
pub fn small()
    ensures { Small }
{}

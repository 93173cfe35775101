// The numbers that the rules set, each named once. `specs/Sizes.antt` has the same for the definitions.
#![tactic(auto)]

// The bytes of a work file's header, which no work file is shorter than.
pub const HEADER_BYTES: usize = 24;

// The bytes of a server record and of an arrival record.
pub const SERVER_BYTES: usize = 8;

pub const ARRIVAL_BYTES: usize = 12;

// The most bytes of a work file.
pub const MOST_FILE: usize = 65_536;

// The longest frame H.
pub const MOST_FRAME: u64 = 604_800;

// The longest horizon N, and the moment at which a live clock ends.
pub const CLOCK_END: u64 = 2_419_200;

// The most servers of a table.
pub const MOST_SERVERS: usize = 64;

// The most arrivals of a work file.
pub const MOST_ARRIVALS: usize = 4_096;

// The greatest cost of one arrival.
pub const MOST_COST: u64 = 604_800;

// The most work that may wait at one server.
pub const MOST_WAITING: u64 = 4_294_967_295;

// What stands in the finish list for an open job.
pub const OPEN_JOB: u32 = u32::MAX;

// The numbers of the trace list that the day report lends to a run, four for each segment that it shows.
pub const TRACE_NUMBERS: usize = 8_192;

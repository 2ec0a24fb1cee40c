//! The numbers from which on the search goes another way. No answer depends on them, but time and memory. Each names the
//! shape that gains most by it, most of them in `tests/costs.py`, and how many times the instructions that takes without it.

/// A group that keeps so many accesses, or fewer, keeps one for each location, found by a look at each. Beyond, a table has
/// the last one of each location. 1,000 variables that four threads read at 40 locations each: 1.48 with 2, and 1.38 times the
/// memory.
pub const ACCESSES_IN_TURN: usize = 64;

/// So many accesses come to the groups of a variable before it has sites. A race on each variable: 1.66.
pub const ACCESSES_BEFORE_SITES: u32 = 32;

/// So many groups of a variable are looked through for that of a thread. Beyond, a table has their indices, and it is asked
/// first whether the places of all groups are known. A race on each variable: 1.21.
pub const GROUPS_IN_TURN: usize = 8;

/// With so many gathered accesses of a variable an access is compared; a table has the others. Variables whose reads waited for a
/// write: 1.75, with 2 for [`ACCESSES_IN_TURN`].
pub const ACCESSES_COMPARED: usize = 16;

/// So many accesses of a group are looked at no sooner than it is asked whether their places are known. 64 threads that
/// write under a lock at 100 locations: 1.93.
pub const ACCESSES_UNASKED: usize = 8;

/// So many sites whose place isn't known are asked whether an access came there. Locations without order: 1.30 with one.
pub const SITES_UNPAIRED: usize = 16;

/// So many accesses may wait in the log, whatever their classes are: below that it is never written anew. If it never is,
/// variables that 200 threads write under a lock take 73 MB for 32, and more with each event.
pub const ENTRIES: usize = 1 << 20;

/// After the log was written anew, so many times as many accesses as are left may wait.
pub const ENTRIES_TIMES: usize = 4;

//! The nearest race of each place of a stream, event by event, with no list of events.
//!
//! A place is an ordered pair of locations, or, where that is asked for, such a pair and a variable. Its nearest race is that whose later event is the least that has a race at
//! the place, and whose earlier event is the greatest with which that one races there (`specs/Nearest.antt`).
//!
//! A *class* is the accesses of a variable at one location by one thread, all writes or all reads. A *group* is the
//! classes of a variable by one thread, of one kind; `groups` keeps of each group some accesses, the newest one of each
//! class among them.
//!
//! An access races with none before it where the last write of its variable is below its predecessor and, for a write,
//! the newest read since is too (`StreamClocks::screen`). Such an access waits: it comes to the end of one log of all variables (`log`),
//! with the place of the access of its variable that came before it. So a variable that never races has no group, and most
//! accesses find what is kept of their variable in a line of the cache or two, and write to the end of the log. Where the
//! same thread had the last access of the variable too, the last two are looked at first: one of the same class is replaced,
//! or one instead of which this one is enough.
//!
//! When the log has grown to its limit, it is written anew, variable by variable, without those instead of which a later one
//! is enough: one at the same location and of the same kind, by the same thread, or by any thread if it is after all accesses
//! of the variable before it (`Latest::is_after_all`). What races with the earlier one races with the later one then. So a
//! variable whose accesses are ordered by a lock has one for each location and kind, however many threads there are. Four
//! times as many as are left may wait the next time, and as many as there are variables, and at least a million: where all
//! differ, this is seldom done in vain.
//!
//! The first access for which this isn't known takes those that wait into their groups (`opened`), by thread and kind, and
//! nothing is known of later ones: each is taken into its group at once, and none waits any more. The first few groups of a
//! variable are looked at, and a table has the indices of the others.
//!
//! Then such an access looks at the groups of its variable by other threads, and at the accesses that a group keeps
//! from the newest one back. It stops at the first that is below its predecessor, since those behind it are too, and at
//! the first that is before an earlier access of its own class, since what is behind that and races with this access
//! raced with that one, and its place is known. It looks at nothing where its own thread alone accessed the variable
//! since that access of its class (`Run`). All that it went over race with it. The last of them at each location
//! (`Rivals`) is offered to the table of places. The earlier access of its class is the last one, where the own group
//! keeps a few, and it replaces that one; else `classes` has one.
//!
//! A variable to whose groups many accesses came has *sites*, its locations (`sites`), and for each of them the set of the
//! sites of earlier accesses whose place with it is known: they are *paired* with it. An access passes over a kept one
//! whose site is paired with its own. Each group has the set of the sites of what it keeps: if more than a few of these
//! accesses need a look, it is asked first whether each site of the set is paired or has no access since the earlier one
//! of the class of this access. Then the group isn't looked at. If there are many groups, the same is asked of the sites
//! of all writes and, for a write, of all reads, and then no group is looked at. After its rivals are offered, their
//! sites are paired with that of the access, unless it was the first there.
//!
//! So such an access costs a step for each group of its variable, and a short one for each kept access that races with it
//! and came after the earlier access of its own class that is found, unless all places of the group are known. That is
//! the last one, but where its group now keeps few accesses and now more: then it can be an older one, or none. A group
//! forgets those that aren't the last at their location when it keeps more than twice as many as were left the last time,
//! and more than a few. Memory grows with names, groups, classes and places, and with no events.
#![tactic(auto)]

mod access;
mod classes;
mod groups;
mod late;
pub mod laws;
mod log;
mod opened;
mod places;
mod rivals;
mod search;
mod sites;
mod tables;
mod thresholds;

pub use access::{FoundAccess, FoundRace, Spot};
pub use search::NearestRaces;

//! Worked examples as calls: each public call of the library's crates is made, and its answer compared with what was worked out
//! by hand. Nothing here is proved: `tests/calls.py` puts this crate into a copy of the repository and runs it there.
#![tactic(auto)]

#[cfg(test)]
mod asserting;
#[cfg(test)]
mod checks;
#[cfg(test)]
mod counts;
#[cfg(test)]
mod devices;
#[cfg(test)]
mod fan;
#[cfg(test)]
mod held;
#[cfg(test)]
mod machine;
#[cfg(test)]
mod nearest;
#[cfg(test)]
mod numbers;
#[cfg(test)]
mod orders;
#[cfg(test)]
mod pairs;
#[cfg(test)]
mod parses;
#[cfg(test)]
mod places;
#[cfg(test)]
mod replays;
#[cfg(test)]
mod reports;
#[cfg(test)]
mod runs;
#[cfg(test)]
mod scans;
#[cfg(test)]
mod source_events;
#[cfg(test)]
mod source_lines;
#[cfg(test)]
mod stream_clocks;
#[cfg(test)]
mod threads;
#[cfg(test)]
mod traces;
#[cfg(test)]
mod words;
#[cfg(test)]
mod workers;

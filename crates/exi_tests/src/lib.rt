//! Tests of the public calls that read and write bits, values and events (W3C EXI 1.0, Second Edition). They stand here, and not in the
//! crates whose calls they are, so that those crates are proved once, as tables of cases, since a test is proved call by call.
#![tactic(auto)]

#[cfg(test)]
mod bits;
#[cfg(test)]
mod cases;
#[cfg(test)]
mod events;
#[cfg(test)]
mod partitions;
#[cfg(test)]
mod reading;
#[cfg(test)]
mod schemas;
#[cfg(test)]
mod unsigned;
#[cfg(test)]
mod writing;

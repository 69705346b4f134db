//! Tests of the public calls that read and write typed messages: the negotiation's (ISO 15118-2:2014, section 8.2), a message with each shape
//! of a part, and the enumerations of ISO 15118-2. They stand here so that the crates whose calls they are are proved once,
//! as tables of cases, since a test is proved call by call.
#![tactic(auto)]

#[cfg(test)]
mod cases;
#[cfg(test)]
mod iso;
#[cfg(test)]
mod negotiation;
#[cfg(test)]
mod parts;
#[cfg(test)]
mod schema;

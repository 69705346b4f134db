//! Tests of the public calls that read and write texts: tokens, values, trees, words of the command line, traces and plans. They stand here
//! so that the crates whose calls they are are proved once, as tables of cases, since a test is proved call by call.
#![tactic(auto)]

#[cfg(test)]
mod cases;
#[cfg(test)]
mod dialects;
#[cfg(test)]
mod plans;
#[cfg(test)]
mod tokens;
#[cfg(test)]
mod traces;
#[cfg(test)]
mod trees;
#[cfg(test)]
mod values;
#[cfg(test)]
mod words;

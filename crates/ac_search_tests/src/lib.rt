//! What no clause says of searches and of what is written of them, shown over their public calls: both sources side by side, counted tries, sinks that
//! fail, growths that are refused. What is answered is shown by the program's own tests.
#![tactic(auto)]

#[cfg(test)]
mod clouds;
#[cfg(test)]
mod report;
#[cfg(test)]
mod search;

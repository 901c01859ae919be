//! What no clause says of runs and sessions, shown over their public calls: lines of a feed, devices that are slow or fail, growths that are refused. What
//! is answered is shown by the program's own tests.
#![tactic(auto)]

#[cfg(test)]
mod left;
#[cfg(test)]
mod lines;
#[cfg(test)]
mod run;
#[cfg(test)]
mod sessions;
#[cfg(test)]
mod usages;

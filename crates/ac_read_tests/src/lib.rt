//! What no clause says of what is read, shown over its public calls: readers of quantities, queries, command lines and tables by themselves, devices that
//! fail, growths that are refused. What is accepted and what is refused is shown by the program's own tests.
#![tactic(auto)]

#[cfg(test)]
mod base;
#[cfg(test)]
mod query;
#[cfg(test)]
mod remedies;
#[cfg(test)]
mod tables;
#[cfg(test)]
mod words;

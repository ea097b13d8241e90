//! Numbers, graces and updates as a table of calls.
#![tactic(auto)]

#[cfg(test)]
mod graces;
#[cfg(test)]
mod updates;

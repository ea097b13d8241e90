//! Rows of the controller's book, as tests: what is worked by hand, and a long run of calls beside a plain list that is read from one end to the
//! other.
#![tactic(auto)]

#[cfg(test)]
mod long_run;
#[cfg(test)]
mod plain;
#[cfg(test)]
mod small;
#[cfg(test)]
mod worked;

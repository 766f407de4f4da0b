// Tests of run lists, with expected values written by hand from docs/FORMAT.md.
#![tactic(auto)]

#[cfg(test)]
mod reading;
#[cfg(test)]
mod texts;
#[cfg(test)]
mod writing;

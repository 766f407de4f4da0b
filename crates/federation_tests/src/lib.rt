// Tests of the calls of a federation, with expected values written by hand from docs/PROTOCOL.md and docs/FORMAT.md.
#![tactic(auto)]

#[cfg(test)]
mod chains;
#[cfg(test)]
mod collecting;
#[cfg(test)]
mod examples;
#[cfg(test)]
mod limits;
#[cfg(test)]
mod messages;
#[cfg(test)]
mod opening;
#[cfg(test)]
mod refused;
#[cfg(test)]
mod restarts;
#[cfg(test)]
mod rig;
#[cfg(test)]
mod rounds;
#[cfg(test)]
mod stores;
#[cfg(test)]
mod tickets;

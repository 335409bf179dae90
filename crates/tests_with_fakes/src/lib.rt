//! Tests that need files, disks, readers, writers or listeners of their own, and of peers that connect to a port of this machine. All else
//! is shown by the scripts, `map_runs` and `service_runs`.
#![tactic(auto)]

#[cfg(test)]
mod bytes;
#[cfg(test)]
mod connections;
#[cfg(test)]
mod disks;
#[cfg(test)]
mod faults;
#[cfg(test)]
mod listeners;
#[cfg(test)]
mod printed;
#[cfg(test)]
mod streams;
#[cfg(test)]
mod wanted;

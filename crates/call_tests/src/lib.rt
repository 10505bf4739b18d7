//! Tests by calls of public names alone: of the engine, of serving, of units that it drives, of desks and their hub, of plants that
//! run in threads, and of the reader of charts. Nothing depends on this crate.
#![tactic(auto)]

#[cfg(test)]
mod boxes;
#[cfg(test)]
mod calls;
#[cfg(test)]
mod charts;
#[cfg(test)]
mod documents;
#[cfg(test)]
mod driven;
#[cfg(test)]
mod drivers;
#[cfg(test)]
mod driving;
#[cfg(test)]
mod ending;
#[cfg(test)]
mod ends;
#[cfg(test)]
mod expected;
#[cfg(test)]
mod faults;
#[cfg(test)]
mod gates;
#[cfg(test)]
mod hub_script;
#[cfg(test)]
mod hub_stage;
#[cfg(test)]
mod hubs;
#[cfg(test)]
mod kept;
#[cfg(test)]
mod left;
#[cfg(test)]
mod lines;
#[cfg(test)]
mod looping;
#[cfg(test)]
mod loops;
#[cfg(test)]
mod plants;
#[cfg(test)]
mod port_ends;
#[cfg(test)]
mod ports;
#[cfg(test)]
mod records;
#[cfg(test)]
mod remarked;
#[cfg(test)]
mod reports;
#[cfg(test)]
mod script;
#[cfg(test)]
mod seats;
#[cfg(test)]
mod serving;
#[cfg(test)]
mod simulator;
#[cfg(test)]
mod stage;
#[cfg(test)]
mod steady;
#[cfg(test)]
mod teller;
#[cfg(test)]
mod threads;
#[cfg(test)]
mod turns;
#[cfg(test)]
mod words;
#[cfg(test)]
mod writers;

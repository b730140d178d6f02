//! Tests of what texts of examples can't say, since a socket, a reader or a writer fails, rows were
//! made or changed under the desk, or the program words a fault otherwise.
#![tactic(auto)]

#[cfg(test)]
mod asking;
#[cfg(test)]
mod changed;
#[cfg(test)]
mod checked;
#[cfg(test)]
mod desks;
#[cfg(test)]
mod exchanges;
#[cfg(test)]
mod fault_texts;
#[cfg(test)]
mod faults;
#[cfg(test)]
mod peers;
#[cfg(test)]
mod progress;
#[cfg(test)]
mod sockets;
#[cfg(test)]
mod tables;
#[cfg(test)]
mod taker;
#[cfg(test)]
mod writers;

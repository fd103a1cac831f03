//! Trials: what neither a contract nor a transcript can show of the layers below. They hold no code.
#![tactic(auto)]

#[cfg(test)]
mod calls;
#[cfg(test)]
mod firsts;
#[cfg(test)]
mod interest;
#[cfg(test)]
mod mailboxes;
#[cfg(test)]
mod marks;
#[cfg(test)]
mod refusals;
#[cfg(test)]
mod requests;
#[cfg(test)]
mod scans;
#[cfg(test)]
mod sharing;
#[cfg(test)]
mod sizes;
#[cfg(test)]
mod streams;
#[cfg(test)]
mod told;
#[cfg(test)]
mod workers;
#[cfg(test)]
mod writers;

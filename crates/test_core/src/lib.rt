//! What no contract of the relayer machine says, by its public calls: runs of the machine, as tables of cases with values
//! from outside, a board over it whose pen and desks work at once, and a team whose lanes the tests hold.
#![tactic(auto)]

#[cfg(test)]
mod board;
#[cfg(test)]
mod make;
#[cfg(test)]
mod rows;
#[cfg(test)]
mod run;
#[cfg(test)]
mod team;
#[cfg(test)]
mod tell;

//! What no contract says of whole runs: that workers work at once, and do each job once; that a run ends whatever they
//! find, or where they go; what a writer that fails has taken; what a supervisor refuses, tells and plans; and the text that scripts are printed as.
#![tactic(auto)]

#[cfg(test)]
mod gate;
#[cfg(test)]
mod players;
#[cfg(test)]
mod printed;
#[cfg(test)]
mod script;
#[cfg(test)]
mod supervisor;
#[cfg(test)]
mod writers;

// Examples of stores at work, as tests. Each is proved to be safe and to end, and then run.
#![tactic(auto)]

#[cfg(test)]
mod layered;
#[cfg(test)]
mod numbered;
#[cfg(test)]
mod tables;

// Examples of rosters, selection and placements.
#![tactic(auto)]

#[cfg(test)]
mod rosters;

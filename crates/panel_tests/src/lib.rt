// Tables of benches and tapes with their answers.
#![tactic(auto)]

#[cfg(test)]
mod any;
#[cfg(test)]
mod benches;
#[cfg(test)]
mod fields;
#[cfg(test)]
mod sweeps;
#[cfg(test)]
mod tapes;
#[cfg(test)]
mod verdict;

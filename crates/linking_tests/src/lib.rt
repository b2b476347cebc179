// Texts with their verdicts: figures, or cause, layer and place.
#![tactic(auto)]

#[cfg(test)]
mod built;
#[cfg(test)]
mod bytes;
#[cfg(test)]
mod chains;
#[cfg(test)]
mod figures;
#[cfg(test)]
mod labels;
#[cfg(test)]
mod levels;
#[cfg(test)]
mod lists;
#[cfg(test)]
mod order;
#[cfg(test)]
mod verdict;

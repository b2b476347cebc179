// Lists with what their passes do: OP, bytes, timers and steps.
#![tactic(auto)]

#[cfg(test)]
mod brackets;
#[cfg(test)]
mod comparisons;
#[cfg(test)]
mod conditions;
#[cfg(test)]
mod lists;
#[cfg(test)]
mod loads;
#[cfg(test)]
mod operators;
#[cfg(test)]
mod pieces;
#[cfg(test)]
mod rows;
#[cfg(test)]
mod stores;

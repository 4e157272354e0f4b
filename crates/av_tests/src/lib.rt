//! Tests of the crates below: values that are known, and slow definitions beside the code that is tested.
//!
//! Nothing here is compiled but for tests.
#![tactic(auto)]

#[cfg(test)]
mod built_systems;
#[cfg(test)]
mod claims;
#[cfg(test)]
mod constraints;
#[cfg(test)]
mod decompositions;
#[cfg(test)]
mod embedded_patterns;
#[cfg(test)]
mod gaps;
#[cfg(test)]
mod intervals;
#[cfg(test)]
mod listers;
#[cfg(test)]
mod matching;
#[cfg(test)]
mod plain_walk;
#[cfg(test)]
mod printed_texts;
#[cfg(test)]
mod pruned_systems;
#[cfg(test)]
mod ranked_trees;
#[cfg(test)]
mod scripts;
#[cfg(test)]
mod simple_words;
#[cfg(test)]
mod splits;
#[cfg(test)]
mod splits_by_filter;
#[cfg(test)]
mod splits_by_hand;
#[cfg(test)]
mod statistics;
#[cfg(test)]
mod system_parts;
#[cfg(test)]
mod tables;
#[cfg(test)]
mod unions;
#[cfg(test)]
mod verdicts;
#[cfg(test)]
mod walks;
#[cfg(test)]
mod well_formed_systems;
#[cfg(test)]
mod words;

//! Tests of whole runs, and of what crashes and failing calls leave of them.
#![tactic(auto)]

#[cfg(test)]
mod configurations;
#[cfg(test)]
mod crashes;
#[cfg(test)]
mod left;
#[cfg(test)]
mod marks;
#[cfg(test)]
mod marks_of_configurations;
#[cfg(test)]
mod runs;
#[cfg(test)]
mod scripts;

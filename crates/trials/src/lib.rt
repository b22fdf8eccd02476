//! Tests of pieces, boards, pools, and runs over these, from outside: a crate that has tests is proved once more for
//! them.
#![tactic(auto)]

#[cfg(test)]
mod boards;
#[cfg(test)]
mod forms;
#[cfg(test)]
mod gates;
#[cfg(test)]
mod parts;
#[cfg(test)]
mod pools;
#[cfg(test)]
mod row;
#[cfg(test)]
mod scripts;

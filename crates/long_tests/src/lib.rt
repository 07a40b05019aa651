//! Tests of the program that are too long for the kit's interpreter. The gate alone runs them, as they are built.
#![tactic(auto)]

#[cfg(test)]
mod crowded_desk;

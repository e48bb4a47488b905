//! Tests of paths, slots and selections: worked rows on the definitions of [`ap_path`], [`ap_pipe`] and [`ap_merge`], and calls of these.
#![tactic(auto)]

#[cfg(test)]
mod design;
#[cfg(test)]
mod increments;
#[cfg(test)]
mod table_rows;

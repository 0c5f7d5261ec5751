// Looking into the nodes of a text of either dialect: strings, what they mean, the value under a key, and keys counted.
#![tactic(auto)]

pub mod counts;
pub mod meanings;
pub mod values;

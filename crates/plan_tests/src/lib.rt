// Examples of plans at the edges of the rules, through the library and through their text.
#![tactic(auto)]

#[cfg(test)]
mod answers;
#[cfg(test)]
mod edges;

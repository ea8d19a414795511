// Tests of frames: read, judged, written and told of, at the edges of each rule.
#![tactic(auto)]

#[cfg(test)]
mod judging;
#[cfg(test)]
mod making;
#[cfg(test)]
mod telling;
#[cfg(test)]
mod writing;

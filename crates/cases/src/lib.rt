// Worked cases, run as tests.
#![tactic(auto)]

#[cfg(test)]
mod nets;
#[cfg(test)]
mod texts;
#[cfg(test)]
mod walks;

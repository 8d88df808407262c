// Examples of the libraries, as tests. Many sheets with their verdicts stand in crates/sheet_cases.
#![tactic(auto)]

#[cfg(test)]
mod layouts;
#[cfg(test)]
mod orders;
#[cfg(test)]
mod rows;
#[cfg(test)]
mod turned;

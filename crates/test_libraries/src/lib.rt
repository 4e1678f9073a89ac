//! Tests of the libraries that rows can't make: reads and saves that fail, and calls that no program makes. Such are a layout without a
//! source, a rule of a caller's own, code of more steps than a source has, the whole 0-1 program of a form, a placement's vector, a
//! search by a given choice, texts that are read back.
//! They stand here, over the built libraries, since a crate that holds tests is proved twice.
#![tactic(auto)]

#[cfg(test)]
mod assembly;
#[cfg(test)]
mod banks;
#[cfg(test)]
mod flat_programs;
#[cfg(test)]
mod layouts;
#[cfg(test)]
mod peep;
#[cfg(test)]
mod programs_text;
#[cfg(test)]
mod reports_text;
#[cfg(test)]
mod rules;
#[cfg(test)]
mod saves;
#[cfg(test)]
mod search;
#[cfg(test)]
mod streams;
#[cfg(test)]
mod sum;

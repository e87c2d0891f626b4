//! Tests of texts and the assembler: sources and sinks that end and fail, over memory and over std's readers and writers;
//! lines and numbers at the edges of what they may be; and whole sources, against what LLVM's assembler makes of them.
#![tactic(auto)]

#[cfg(test)]
mod assembling;
#[cfg(test)]
mod bundles;
#[cfg(test)]
mod lines;
#[cfg(test)]
mod sources;
#[cfg(test)]
mod statements;
#[cfg(test)]
mod streams;
#[cfg(test)]
mod tables;
#[cfg(test)]
mod workloads;

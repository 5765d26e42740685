//! Tests of sources, values, expressions, arrays and layouts: what no contract says, as that calls with enough memory
//! succeed. The crate has nothing for others.
#![tactic(auto)]

#[cfg(test)]
mod arrays;
#[cfg(test)]
mod building;
#[cfg(test)]
mod expressions;
#[cfg(test)]
mod layouts;
#[cfg(test)]
mod printed;
#[cfg(test)]
mod sources;
#[cfg(test)]
mod values;

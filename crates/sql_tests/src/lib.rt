//! Tests of the trees of SQL text, of expressions and of blocks, over public calls alone.
#![tactic(auto)]

#[cfg(test)]
mod alike;
#[cfg(test)]
mod asked;
#[cfg(test)]
mod expressions;
#[cfg(test)]
mod limits;
#[cfg(test)]
mod locks;
#[cfg(test)]
mod memory;
#[cfg(test)]
mod refused;
#[cfg(test)]
mod returned;
#[cfg(test)]
mod sizes;
#[cfg(test)]
mod trees;
#[cfg(test)]
mod uses;
#[cfg(test)]
mod words;

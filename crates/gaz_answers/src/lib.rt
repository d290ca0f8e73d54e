//! What the rows of an answer tell: lives, pages of a street, items of a page, volumes, passages,
//! verdicts and bytes. And where a statement starts that asks for more.
#![tactic(auto)]

pub mod files;
pub mod laws;
pub mod life_rows;
pub mod pages;
pub mod passages;
pub mod sizes;
pub mod steps;
pub mod volumes;

//! What no reply, no contract and no run of a program tells: what keepers in memory answer to
//! one list of calls; which field of an item is at fault; files and items that are read and
//! written; a register that grows under a hub; how a conversation ends; and what calls answer that
//! no program makes.
#![tactic(auto)]

#[cfg(test)]
mod calls;
#[cfg(test)]
mod conversations;
#[cfg(test)]
mod file_fixtures;
#[cfg(test)]
mod files_back;
#[cfg(test)]
mod growth;
#[cfg(test)]
mod mirrors;
#[cfg(test)]
mod records;
#[cfg(test)]
mod registers;
#[cfg(test)]
mod unasked;
#[cfg(test)]
mod wanted;

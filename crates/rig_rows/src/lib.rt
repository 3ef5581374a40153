//! Rows of values, one behind another in one list, and the indices of keys by key. A graph keeps the links of each node so.
//!
//! # Examples
//!
//! Three rows, of which the second is empty:
//!
//! ```text
//! rows = Rows::new(alloc)
//! rows.push([7, 8])    Ok(())
//! rows.push([])        Ok(())
//! rows.push([9])       Ok(())
//! rows.len()           3
//! rows.get(0)          [7, 8]
//! rows.get(1)          []
//! rows.items()         [7, 8, 9]
//! rows.start(2)        2: that many values stand before row 2
//! rows.start(3)        3: that many values are there
//! ```
//!
//! Five links by the node that each ends at, where there are four nodes:
//!
//! ```text
//! rows = Rows::grouped(alloc, 4, [2, 0, 2, 3, 0])    Ok([1, 4], [], [0, 2], [3])
//! rows.select(alloc, [a, b, c, d, e])                Ok([b, e], [], [a, c], [d])
//! ```
//!
//! # Rules
//!
//! - A row is added at the end. Rows aren't changed, moved or removed.
//! - There are fewer than 2^32 values in all, and any number of rows.
//! - [`Rows::grouped`] has a row for each key below the count. In each row the indices rise. It takes memory twice, whatever
//!   the number of keys, and passes over the keys twice and over the counts once.
//! - [`Rows::select`] has in each row the values at the indices of that row.
//! - Only [`Rows::push`], [`Rows::grouped`] and [`Rows::select`] allocate. Their only error is want of memory, and then the rows
//!   are unchanged.
//!
//! Nothing here searches a row, or gives a row out by value. No contract says how long a call takes.
#![tactic(auto)]

mod counting;
mod rows;
#[cfg(test)]
mod tests;

pub use rows::Rows;

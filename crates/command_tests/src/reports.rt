//! Reports of books that no script leaves, line by line, and the line of tallies that no run kept.

#[cfg(test)]
mod tallies;
#[cfg(test)]
mod tests;

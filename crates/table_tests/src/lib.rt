//! Tests of what lies below a tree: cells, texts, numbers, files, records and drawn files; what a
//! schema, a batch and a line say, dictionaries of texts, tables of rows, and what rows share. Each
//! has its cases in a table, which one small loop goes through.
#![tactic(auto)]

#[cfg(test)]
mod cells;
#[cfg(test)]
mod closures;
#[cfg(test)]
mod drawn_files;
#[cfg(test)]
mod fields;
#[cfg(test)]
mod files;
#[cfg(test)]
mod lines;
#[cfg(test)]
mod numbers;
#[cfg(test)]
mod outside;
#[cfg(test)]
mod records;
#[cfg(test)]
mod rows;
#[cfg(test)]
mod schemas;
#[cfg(test)]
mod tests;
#[cfg(test)]
mod texts;
#[cfg(test)]
mod wider;
#[cfg(test)]
mod widths;

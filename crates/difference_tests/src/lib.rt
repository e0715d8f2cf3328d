//! Tests of difference documents and of their judgement: tables of single documents, and many random ones against a plain program of
//! the format.
#![tactic(auto)]

#[cfg(test)]
mod cutovers;
#[cfg(test)]
mod documents;
#[cfg(test)]
mod full_models;
#[cfg(test)]
mod judging;
#[cfg(test)]
mod limits;
#[cfg(test)]
mod plain_reader;
#[cfg(test)]
mod random_documents;
#[cfg(test)]
mod texts;
#[cfg(test)]
mod written;

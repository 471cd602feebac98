// The persons that a library holds.
use yw_base::{Items, Name, NameList};

/// Who may do work. The paper's resource; that roles stand for what it may do is after the thesis.
#[derive(Debug, Drop)]
pub struct Person {
    /// The name.
    pub name: Name,
    /// The roles, of which the person has no others.
    pub roles: NameList,
}

/// Persons in the order in which they came first.
pub type PersonList = Items<Person>;

// What a command names, and what is found of it.
use yw_base::{NameList, Row};
use yw_known::{ItemHere, NetHere};
use yw_mark::Taken;
use yw_spec::Spec;
use yw_state::Event;

/// A specification that a launch names.
#[derive(Drop)]
pub struct SpecAsked<'a> {
    /// The specification.
    pub spec: &'a Spec,
    /// Its number among those that are loaded.
    pub number: usize,
}

/// An item that a command of a person names.
#[derive(Drop)]
pub struct ItemAsked<'a> {
    /// The person's roles.
    pub roles: &'a NameList,
    /// The item.
    pub here: ItemHere<'a>,
}

/// A net that a command of a person names.
#[derive(Drop)]
pub struct NetAsked<'a> {
    /// The person's roles.
    pub roles: &'a NameList,
    /// The net.
    pub here: NetHere<'a>,
}

/// A task of a net that may be entered.
#[derive(Drop)]
pub struct EntryAsked {
    /// Its number.
    pub task: usize,
    /// From which places its join takes.
    pub taken: Taken,
    /// What each of its items is given.
    pub rows: Vec<Row>,
}

/// An item that may be added.
#[derive(Drop)]
pub struct AddAsked {
    /// The event that is asked for.
    pub event: Event,
    /// The number of its task in the net.
    pub task: usize,
}

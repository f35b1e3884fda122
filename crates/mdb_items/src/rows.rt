//! What the texts of a row say, whatever they are: the rules judge these rows, those of sheets and those of stored octets alike.

use crate::container::Comparison;
use crate::name::MdbName;
use crate::parameter::Coding;
use item_list::items::Items;

/// What a text that names an item says.
#[derive(Drop, Clone, Copy)]
pub enum Reference {
    /// The text is empty.
    Nothing,
    /// No item has the name.
    Unknown,
    /// The number of the item.
    Known(usize),
}

/// What the columns kind, x and y of a calibration's row say; None where a text isn't what the kind asks for.
#[derive(Drop)]
pub enum RowValues {
    /// The kind is unknown.
    Unread,
    /// Of `poly`: an exponent and a coefficient in millionths.
    Coefficient(Option<u8>, Option<i64>),
    /// Of `points`: a raw number and its value in millionths.
    Point(Option<i128>, Option<i64>),
    /// Of `enum`: a raw number and its label.
    Label(Option<i128>, MdbName),
}

/// A row of the parameters sheet.
#[derive(Drop)]
pub struct ParameterRow {
    /// How many fields the record has.
    pub fields: usize,
    pub name: MdbName,
    pub coding: Option<Coding>,
    /// The bits, where they are 1 to 64.
    pub bits: Option<u8>,
    pub calibration: Reference,
}

/// What a row that begins a container says of it.
#[derive(Drop)]
pub struct NewContainer {
    pub name: MdbName,
    pub parent: Reference,
    pub condition: Option<Items<Comparison>>,
    pub archive: Option<bool>,
}

/// The columns of a row of the containers sheet before its entry.
#[derive(Drop)]
pub enum ContainerColumns {
    /// The row begins a container.
    Begins(NewContainer),
    /// The row continues the last container. True where it has a parent, condition or archive text.
    Continues(bool),
}

/// Where an entry stands.
#[derive(Drop, Clone, Copy)]
pub enum EntryPosition {
    /// There's no text and no entry.
    Nothing,
    /// The text is no position.
    Unknown,
    /// A bit of the packet, from 0.
    At(u64),
}

//! The objects of a data sheet.

/// What an object is made of (CiA 301, object codes; CiA 306, object description).
#[derive(Clone, Copy)]
pub enum ObjectType {
    /// One entry of any length.
    Domain = 2,
    /// One entry.
    Var = 7,
    /// Entries of one type.
    Array = 8,
    /// Entries of any types.
    Record = 9,
}

/// An object that the object lists name, from 1000h on.
#[derive(Clone, Copy)]
pub struct Object<'a> {
    pub index: u16,
    pub object_type: ObjectType,
    /// ParameterName, where it is there.
    pub name: Option<&'a [u8]>,
    /// The line of the object's section, from 1.
    pub line: usize,
}

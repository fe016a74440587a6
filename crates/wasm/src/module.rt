// A module's parts, each as it stands in the specification.
mod derived;

use scroll_layouts::{Items, Uleb};

/// A module of a known length (section 5.5.16).
// #[derive(Part)]
// #[scroll(given = len: usize, order = LE)]
#[derive(Clone, Copy)]
pub struct Module<'a> {
    // #[scroll(is = b"\0asm")]
    pub magic: [u8; 4],
    // #[scroll(is = 1)]
    pub version: u32,
    // #[scroll(ctx = rest)]
    pub sections: Items<'a, Sections>,
}

/// Names the list of sections.
// #[derive(Pread, Pwrite)]
// #[scroll(items = Section)]
#[derive(Clone, Copy)]
pub struct Sections;

/// A section (section 5.5.2).
// #[derive(Pread, Pwrite)]
#[derive(Clone, Copy)]
pub struct Section<'a> {
    pub id: u8,
    pub size: Uleb,
    // #[scroll(ctx = (id, size as usize))]
    pub contents: Contents<'a>,
}

/// The contents of a section, by its number. Those of other sections are bytes.
// #[derive(Part)]
// #[scroll(given = (id: u8, size: usize))]
#[derive(Clone, Copy)]
pub enum Contents<'a> {
    // #[scroll(is = 0, ctx = size)]
    Custom(Custom<'a>),
    // #[scroll(is = 1, within = size)]
    Types(Types<'a>),
    // #[scroll(is = 2, within = size)]
    Imports(Imports<'a>),
    // #[scroll(is = 3, within = size)]
    Functions(Indices<'a>),
    // #[scroll(is = 7, within = size)]
    Exports(Exports<'a>),
    // #[scroll(is = _, ctx = size)]
    Other(&'a [u8]),
}

/// A name in UTF-8 (section 5.2.4).
// #[derive(Part)]
#[derive(Clone, Copy)]
pub struct Name<'a> {
    pub len: Uleb,
    // #[scroll(ctx = StrCtx::Length(len as usize))]
    pub text: &'a str,
}

/// A custom section (section 5.5.3): a name, and whatever follows it.
// #[derive(Part)]
// #[scroll(given = size: usize)]
#[derive(Clone, Copy)]
pub struct Custom<'a> {
    pub name: Name<'a>,
    // #[scroll(ctx = rest)]
    pub bytes: &'a [u8],
}

/// The types of functions.
// #[derive(Part)]
#[derive(Clone, Copy)]
pub struct Types<'a> {
    pub count: Uleb,
    // #[scroll(ctx = Count(count as usize))]
    pub each: Items<'a, FunctionTypes>,
}

/// Names the list of function types.
// #[derive(Pread, Pwrite)]
// #[scroll(items = FunctionType)]
#[derive(Clone, Copy)]
pub struct FunctionTypes;

/// The type of a function (section 5.3.6): a byte for the type of each parameter and result.
// #[derive(Part)]
#[derive(Clone, Copy)]
pub struct FunctionType<'a> {
    // #[scroll(is = 0x60)]
    pub form: u8,
    pub parameter_count: Uleb,
    // #[scroll(ctx = parameter_count as usize)]
    pub parameters: &'a [u8],
    pub result_count: Uleb,
    // #[scroll(ctx = result_count as usize)]
    pub results: &'a [u8],
}

/// What is imported.
// #[derive(Part)]
#[derive(Clone, Copy)]
pub struct Imports<'a> {
    pub count: Uleb,
    // #[scroll(ctx = Count(count as usize))]
    pub each: Items<'a, ImportList>,
}

/// Names the list of imports.
// #[derive(Pread, Pwrite)]
// #[scroll(items = Import)]
#[derive(Clone, Copy)]
pub struct ImportList;

/// An import (section 5.5.5): the module and the name there.
// #[derive(Part)]
#[derive(Clone, Copy)]
pub struct Import<'a> {
    pub module: Name<'a>,
    pub name: Name<'a>,
    pub what: Imported,
}

/// What an import is.
// #[derive(Part)]
// #[scroll(tag = u8)]
#[derive(Clone, Copy)]
pub enum Imported {
    // #[scroll(is = 0)]
    Function(Uleb),
    // #[scroll(is = 1)]
    Table(TableType),
    // #[scroll(is = 2)]
    Memory(Limits),
    // #[scroll(is = 3)]
    Global(u8, u8),
}

/// A table: the type of its elements, and its limits.
// #[derive(Part)]
#[derive(Clone, Copy)]
pub struct TableType {
    pub element: u8,
    pub limits: Limits,
}

/// How many pages or elements there are at first, and at most (section 5.3.7).
// #[derive(Part)]
#[derive(Clone, Copy)]
pub struct Limits {
    // #[scroll(check = flags <= 1)]
    pub flags: u8,
    pub least: Uleb,
    // #[scroll(if = flags == 1)]
    pub most: Option<Uleb>,
}

/// Indices, such as those of types.
// #[derive(Part)]
#[derive(Clone, Copy)]
pub struct Indices<'a> {
    pub count: Uleb,
    // #[scroll(ctx = Count(count as usize))]
    pub each: Items<'a, IndexList>,
}

/// Names the list of indices.
// #[derive(Pread, Pwrite)]
// #[scroll(items = Uleb)]
#[derive(Clone, Copy)]
pub struct IndexList;

/// What is exported.
// #[derive(Part)]
#[derive(Clone, Copy)]
pub struct Exports<'a> {
    pub count: Uleb,
    // #[scroll(ctx = Count(count as usize))]
    pub each: Items<'a, ExportList>,
}

/// Names the list of exports.
// #[derive(Pread, Pwrite)]
// #[scroll(items = Export)]
#[derive(Clone, Copy)]
pub struct ExportList;

/// An export (section 5.5.10). Its kind is 0 to 3: a function, a table, a memory, a global.
// #[derive(Part)]
#[derive(Clone, Copy)]
pub struct Export<'a> {
    pub name: Name<'a>,
    // #[scroll(check = kind <= 3)]
    pub kind: u8,
    pub index: Uleb,
}

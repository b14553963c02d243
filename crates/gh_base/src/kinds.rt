//! The kinds of faults of the formats, and the places in them.
use crate::text::Text;

/// A form of maps.
#[derive(Clone, Copy, Debug, PartialEq, Eq)]
pub enum Form {
    /// Lines of text, as people write them.
    Plain,
    /// OpenStreetMap's own files, uncompressed.
    Pbf,
}

/// What is wrong at a word of a plain map.
#[derive(Clone, Copy, Debug, PartialEq, Eq)]
pub enum PlainKind {
    /// The line isn't UTF-8: usually the file is in another encoding, or no text. Convert it.
    Utf8,
    /// The first word tells no node, way or relation: usually this isn't a plain map, or a line was broken in two.
    Line,
    /// An id, a coordinate or a reference isn't written as one: mend the number, or write fewer digits.
    Number,
    /// In a key or value a `%` begins no character: write the `%` itself as `%25%`.
    Escape,
    /// A tag without exactly one `=`: usually a `,` or `=` of the text that had to be an escape.
    Tag,
    /// A coordinate off the earth: usually latitude and longitude were exchanged, or the decimal point was lost.
    Place,
    /// A second space, a letter that is no field, or a field given twice: usually the map is of another dialect.
    Field,
    /// A node without latitude or longitude: usually the line was cut, or tells of a node that was deleted.
    Missing,
}

/// What is wrong at a byte of a PBF file.
#[derive(Debug, Drop)]
pub enum PbfKind {
    /// The file ends inside a blob: usually a download that was cut. Fetch it again.
    Truncated,
    /// A header of 65536 bytes or more: usually this is no PBF file.
    HeaderTooLong,
    /// What stands here is no message: usually the file was damaged. Fetch it again.
    BadWire,
    /// A message lacks a field that it must have: the program that wrote the file is at fault.
    Missing,
    /// A blob over 32 MiB: usually the file was damaged; else write it again in smaller blocks.
    BlobTooLong,
    /// The file doesn't begin as OpenStreetMap's do: usually it is empty, or its beginning was lost.
    NoHeader,
    /// A blob without content: the program that wrote the file is at fault.
    NoData,
    /// The content is compressed, in this field of its blob: write the file again without compression.
    Compressed { field: u32 },
    /// The file needs a reader of more, as of history: convert it. The name is empty where it was no text.
    Feature { name: Text },
    /// A tag's text isn't UTF-8: usually the file was damaged.
    BadUtf8,
    /// Lists that belong together differ in length: usually the file was damaged.
    Uneven,
    /// The tags of dense nodes aren't key and value by node: usually the file was damaged.
    OddKeys,
    /// A tag's text isn't in its block: usually the file was damaged.
    BadIndex,
    /// An id of more than eighteen digits: usually a sum of differences that went astray; ids of the world are shorter.
    BadId,
    /// A coordinate off the earth: usually the file was damaged, or says its scale wrongly.
    BadPlace,
}

/// What is wrong at a byte of a JSON text.
#[derive(Clone, Copy, Debug, PartialEq, Eq)]
pub enum JsonKind {
    /// A bracket, a text or a word is still open: usually the text was cut, or its last bracket forgotten.
    End,
    /// No value can go on so: usually a comma or a quote too many or too few.
    Byte,
    /// The text isn't UTF-8: usually it is in another encoding. Convert it.
    Utf8,
    /// Half of a character that is written as two `\u` escapes: write both, or the character itself.
    Escape,
    /// A number of more digits than are kept exactly: write fewer.
    TooLong,
    /// An object has this key already: it isn't known which of the two is meant. Take one out.
    TwiceKey,
    /// Over 64 brackets are open: no model needs so many.
    Depth,
    /// The value has ended before: usually a bracket too many, or two values in a row.
    After,
}

/// What is wrong at a place of a model.
#[derive(Clone, Copy, Debug, PartialEq, Eq)]
pub enum ModelKind {
    /// Braces are wanted, with keys and values in them.
    NotObject,
    /// A model has no such part: usually the key is misspelt.
    UnknownKey,
    /// A list in brackets is wanted, even of one statement.
    NotList,
    /// A statement is one condition and one action: usually a key is misspelt, missing or one too many.
    Statement,
    /// An `else` stands behind no `if`: usually the statement before it was taken out.
    NoIf,
    /// The condition can't go on so: usually a bracket too many or too few, or a comparison that this name hasn't.
    Condition,
    /// No value or area is called so here: usually it is misspelt, or the area isn't in this model.
    Name,
    /// A number that isn't written as one, or is beyond its range: a factor is 0 to 10, a speed 0 to 1000 km/h.
    Number,
    /// No GeoJSON feature: usually its id is missing, or isn't of letters, digits and `_`.
    Feature,
    /// Two areas have this id: give one of them another.
    TwiceId,
    /// An area is a polygon or several: points and lines bound none.
    Geometry,
    /// A ring that doesn't end where it began, or has fewer than four positions: repeat its first at its end.
    Ring,
    /// No place on the earth: usually latitude stands before longitude.
    Position,
    /// More than a model may have: join statements, or simplify the areas.
    TooMany,
}

/// A part of a model.
#[derive(Clone, Copy, Debug, PartialEq, Eq)]
pub enum Part {
    /// The model as a whole.
    Top,
    /// The areas, counted among their features.
    Areas,
    /// The statements on speed.
    Speed,
    /// The statements on priority.
    Priority,
    /// How much distance counts beside time.
    Influence,
}

/// A place in a model: items count from 1, and item 0 is the part itself; bytes count from 0.
#[derive(Clone, Copy, Debug, PartialEq, Eq)]
pub struct Place3 {
    pub part: Part,
    pub item: u32,
    pub byte: u32,
}

/// What is wrong at a word of a script.
#[derive(Clone, Copy, Debug, PartialEq, Eq)]
pub enum ScriptKind {
    /// The line isn't UTF-8: usually the file is in another encoding, or no text. Convert it.
    Utf8,
    /// A word that isn't wanted here, or is lacking: usually the command is misspelt.
    Word,
    /// A name is a lower-case letter and up to fifteen letters, digits and `_`, and no word of the header.
    Name,
    /// It was declared before: take one line out, or choose another name.
    Twice,
    /// No line of the header declares this actor: usually the name is misspelt.
    NoActor,
    /// No line of the header declares this profile: usually the name is misspelt.
    NoProfile,
    /// A line of the header behind the first command: move it up.
    Late,
    /// A count, a speed or an edge that isn't written as one, or is beyond its range.
    Number,
    /// No place on the earth: write `n` and a node's id, or latitude, a comma and longitude.
    Place,
    /// The profile's model isn't JSON: parse it alone to see where.
    Json,
    /// The profile's model is JSON, but says what no model may: parse it alone to see where.
    Model,
    /// More actors, profiles or commands than one run takes: split the script.
    TooMany,
}

//! What a user reads where a run didn't end well.
ghost use Rattle.std.specs.Prelude.{◌≡◌, ◌++◌, IfOk, OnOk};
ghost use Rattle.gh_serve.specs.Texts.{plain_word, pbf_word, pbf_more, script_word, quantity_word, place_text, import_word, import_more, prep_text, prep_word, missing_text, map_text, fault_text_of};

use gh_base::{NoMemory, PbfKind, PlainKind, ScriptKind, Text};
use map_import::ImportFault;
use map_roads::{MapFault, Quantity, Status, Which};
use prep_store::PrepFault;
use std::alloc::Global;

fn plain_word_of(kind: PlainKind) -> &'static str
    ensures { result.now ≡ plain_word kind }
{
    match kind {
        PlainKind::Utf8 => "Utf8",
        PlainKind::Line => "Line",
        PlainKind::Number => "Number",
        PlainKind::Escape => "Escape",
        PlainKind::Tag => "Tag",
        PlainKind::Place => "Place",
        PlainKind::Field => "Field",
        PlainKind::Missing => "Missing",
    }
}

fn script_word_of(kind: ScriptKind) -> &'static str
    ensures { result.now ≡ script_word kind }
{
    match kind {
        ScriptKind::Utf8 => "Utf8",
        ScriptKind::Word => "Word",
        ScriptKind::Name => "Name",
        ScriptKind::Twice => "Twice",
        ScriptKind::NoActor => "NoActor",
        ScriptKind::NoProfile => "NoProfile",
        ScriptKind::Late => "Late",
        ScriptKind::Number => "Number",
        ScriptKind::Place => "Place",
        ScriptKind::Json => "Json",
        ScriptKind::Model => "Model",
        ScriptKind::TooMany => "TooMany",
    }
}

fn quantity_word_of(what: Quantity) -> &'static str
    ensures { result.now ≡ quantity_word what }
{
    match what {
        Quantity::Map => "map bytes",
        Quantity::Script => "script bytes",
        Quantity::Labels => "labels",
        Quantity::Way => "way bytes",
    }
}

/// The word of a PBF kind that has no more to say.
fn pbf_word_of(kind: &PbfKind) -> &'static str
    ensures { result.now ≡ pbf_word kind.now }
{
    match kind {
        PbfKind::Truncated => "Truncated",
        PbfKind::HeaderTooLong => "HeaderTooLong",
        PbfKind::BadWire => "BadWire",
        PbfKind::Missing => "Missing",
        PbfKind::BlobTooLong => "BlobTooLong",
        PbfKind::NoHeader => "NoHeader",
        PbfKind::NoData => "NoData",
        PbfKind::Compressed { .. } => "Compressed ",
        PbfKind::Feature { .. } => "Feature ",
        PbfKind::BadUtf8 => "BadUtf8",
        PbfKind::Uneven => "Uneven",
        PbfKind::OddKeys => "OddKeys",
        PbfKind::BadIndex => "BadIndex",
        PbfKind::BadId => "BadId",
        PbfKind::BadPlace => "BadPlace",
    }
}

/// `WHAT line L byte B: KIND`.
fn put_place(text: &mut Text, what: &str, line: u32, byte: u32, word: &str) -> Result<(), NoMemory>
    ensures { OnOk result (text.new ≡ text.old ++ place_text what.now line byte word.now) }
{
    text.push(what)?;
    text.push(" line ")?;
    text.push_number(u128::from(line))?;
    text.push(" byte ")?;
    text.push_number(u128::from(byte))?;
    text.push(": ")?;
    text.push(word)
}

/// What a PBF kind has to say behind its word.
fn put_more(text: &mut Text, kind: &PbfKind) -> Result<(), NoMemory>
    ensures { OnOk result (text.new ≡ text.old ++ pbf_more kind.now) }
{
    match kind {
        PbfKind::Compressed { field } => text.push_number(u128::from(*field)),
        PbfKind::Feature { name } => text.push(name.as_str()),
        _ => Ok(()),
    }
}

/// The word of a refusal of import.
fn import_word_of(fault: &ImportFault) -> &'static str
    ensures { result.now ≡ import_word fault.now }
{
    match fault {
        ImportFault::TwiceNode { .. } => "TwiceNode ",
        ImportFault::MissingNode { .. } => "MissingNode way ",
        ImportFault::TooLong { .. } => "TooLong way ",
        ImportFault::TooManyEdges => "TooManyEdges",
        ImportFault::TooManyNodes => "TooManyNodes",
        ImportFault::NoMemory => "NoMemory",
    }
}

/// A way, and the node that it lacks.
fn put_missing(text: &mut Text, way: i64, node: i64) -> Result<(), NoMemory>
    ensures { OnOk result (text.new ≡ text.old ++ missing_text way node) }
{
    text.push_signed(way)?;
    text.push(" node ")?;
    text.push_signed(node)
}

/// What a refusal of import has to say behind its word.
fn put_import_more(text: &mut Text, fault: &ImportFault) -> Result<(), NoMemory>
    ensures { OnOk result (text.new ≡ text.old ++ import_more fault.now) }
{
    match fault {
        ImportFault::TwiceNode { id } => text.push_signed(*id),
        ImportFault::MissingNode { way, node } => put_missing(text, *way, *node),
        ImportFault::TooLong { way } => text.push_signed(*way),
        _ => Ok(()),
    }
}

fn put_map_fault(text: &mut Text, fault: &MapFault) -> Result<(), NoMemory>
    ensures { OnOk result (text.new ≡ text.old ++ map_text fault.now) }
{
    match fault {
        MapFault::Plain { line, byte, kind } => {
            put_place(text, "map", *line, *byte, plain_word_of(*kind))
        }
        MapFault::Pbf { byte, kind } => {
            text.push("map byte ")?;
            text.push_number(u128::from(*byte))?;
            text.push(": ")?;
            text.push(pbf_word_of(kind))?;
            put_more(text, kind)
        }
        MapFault::Import(fault) => {
            text.push("map: ")?;
            text.push(import_word_of(fault))?;
            put_import_more(text, fault)
        }
    }
}

/// The word of a fault of a stored preparation.
fn prep_word_of(fault: &PrepFault) -> &'static str
    ensures { result.now ≡ prep_word fault.now }
{
    match fault {
        PrepFault::ReadFault => "ReadFault",
        PrepFault::NoMemory => "NoMemory",
        PrepFault::Short { .. } => "Short",
        PrepFault::Magic => "Magic",
        PrepFault::Profile { .. } => "Profile",
        PrepFault::Sizes { .. } => "Sizes",
        PrepFault::Count { .. } => "Count",
        PrepFault::Landmarks { .. } => "Landmarks",
        PrepFault::Grain { .. } => "Grain",
        PrepFault::Order { .. } => "Order",
        PrepFault::Open { .. } => "Open",
        PrepFault::After => "After",
    }
}

fn put_prep_fault(text: &mut Text, fault: &PrepFault) -> Result<(), NoMemory>
    ensures { OnOk result (text.new ≡ text.old ++ prep_text fault.now) }
{
    text.push("preparation: ")?;
    text.push(prep_word_of(fault))
}

fn put_fault(text: &mut Text, status: &Status) -> Result<(), NoMemory>
    ensures { OnOk result (text.new ≡ text.old ++ fault_text_of status.now) }
{
    match status {
        Status::Done => Ok(()),
        Status::Usage => text.push("gh: usage"),
        Status::NoMemory => text.push("gh: no memory"),
        Status::OpenFault => text.push("gh: cannot open the map"),
        Status::ReadFault(Which::Map) => text.push("gh: cannot read the map"),
        Status::ReadFault(Which::Script) => text.push("gh: cannot read the script"),
        Status::WriteFault => text.push("gh: cannot write"),
        Status::BadMap(fault) => {
            text.push("gh: ")?;
            put_map_fault(text, fault)
        }
        Status::BadScript { line, byte, kind } => {
            text.push("gh: ")?;
            put_place(text, "script", *line, *byte, script_word_of(*kind))
        }
        Status::TooLarge { what, limit } => {
            text.push("gh: ")?;
            text.push(quantity_word_of(*what))?;
            text.push(" over ")?;
            text.push_number(u128::from(*limit))
        }
        Status::NoLandmark => text.push("gh: no landmark"),
        Status::BadPrep(fault) => {
            text.push("gh: ")?;
            put_prep_fault(text, fault)
        }
    }
}

/// The line that says why a run ended as it did, without its newline: empty where it is `Done`.
pub fn fault_text(alloc: Global, status: &Status) -> Result<Text, NoMemory>
    ensures { IfOk result (λ text. text ≡ fault_text_of status.now) }
{
    let mut text = Text::new(alloc);
    put_fault(&mut text, status)?;
    Ok(text)
}

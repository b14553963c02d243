//! Numbers, items and lists as bytes.
ghost use Rattle.std.specs.Prelude.{◌≡◌, ◌++◌, ◌<◌, ◌^◌, length, map, OnOk};
ghost use Rattle.byteorder.specs.Endian.{big_bytes};
ghost use Rattle.prep_store.specs.Stores.{words, item_text, items_text, list_text};

use crate::item::Item;
use gh_base::{NoMemory, NodeId};

/// Appends a number in two bytes.
fn put_u16(out: &mut Vec<u8>, number: u16) -> Result<(), NoMemory>
    ensures { OnOk result (out.new.items ≡ out.old.items ++ big_bytes 2 number) }
{
    Ok(out.extend_from_slice(&number.to_be_bytes())?)
}

/// Appends a number in four bytes.
pub(crate) fn put_u32(out: &mut Vec<u8>, number: u32) -> Result<(), NoMemory>
    ensures { OnOk result (out.new.items ≡ out.old.items ++ big_bytes 4 number) }
{
    Ok(out.extend_from_slice(&number.to_be_bytes())?)
}

/// Appends a number in eight bytes.
pub(crate) fn put_u64(out: &mut Vec<u8>, number: u64) -> Result<(), NoMemory>
    ensures { OnOk result (out.new.items ≡ out.old.items ++ big_bytes 8 number) }
{
    Ok(out.extend_from_slice(&number.to_be_bytes())?)
}

/// Appends numbers in four bytes each.
pub(crate) fn put_words(out: &mut Vec<u8>, numbers: &[u32]) -> Result<(), NoMemory>
    ensures { OnOk result (out.new.items ≡ out.old.items ++ words numbers.now) }
{
    for number in numbers {
        put_u32(out, *number)?;
    }
    Ok(())
}

/// Appends the numbers of nodes, in four bytes each.
pub(crate) fn put_nodes(out: &mut Vec<u8>, nodes: &[NodeId]) -> Result<(), NoMemory>
    ensures { OnOk result (out.new.items ≡ out.old.items ++ words (map (λ node. node.0) nodes.now)) }
{
    for node in nodes {
        put_u32(out, node.0)?;
    }
    Ok(())
}

/// Appends an item.
fn put_item(out: &mut Vec<u8>, item: Item) -> Result<(), NoMemory>
    ensures { OnOk result (out.new.items ≡ out.old.items ++ item_text item) }
{
    put_u32(out, item.node.0)?;
    put_u16(out, item.label)
}

/// Appends items.
fn put_items(out: &mut Vec<u8>, items: &[Item]) -> Result<(), NoMemory>
    ensures { OnOk result (out.new.items ≡ out.old.items ++ items_text items.now) }
{
    for item in items {
        put_item(out, *item)?;
    }
    Ok(())
}

/// Appends a list, behind the number of its items.
pub(crate) fn put_list(out: &mut Vec<u8>, items: &[Item]) -> Result<(), NoMemory>
    requires { length items.now < 2 ^ 32 }
    ensures { OnOk result (out.new.items ≡ out.old.items ++ list_text items.now) }
{
    put_u32(out, items.len() as u32)?;
    put_items(out, items)
}

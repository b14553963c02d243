//! A plain map read out of a source.
ghost use Rattle.std.specs.Prelude.{◌≡◌, ◌<◌, ◌≤◌, ◌^◌, ◌+◌, ◌-◌, length, All, IfOk, IfSome, OnOk, IsErrOf};
ghost use Rattle.std.specs.Io.KnownBytes.{IsAtEnd};
ghost use Rattle.gh_base.specs.Causes.{Rose};
ghost use Rattle.gh_base.specs.Places.{IsOnEarth};
ghost use Rattle.plain_map.specs.Lines.{with_item, reads, IsItemOnEarth};
ghost use Rattle.plain_map.specs.Reading.{Parses, Answers};

use crate::fault::{LineFault, PlainFault};
use crate::line::{Item, read_line};
use gh_base::{NoMemory, OsmMap, OsmNodes, OsmWays, Source, TakeFault, first_bytes, read_whole};
use std::alloc::Global;

/// The most bytes of a plain map: 256 MiB.
const LONGEST_MAP: usize = 268435456;

fn put(map: &mut OsmMap, item: Option<Item>) -> Result<(), NoMemory>
    requires before { All (λ n. IsOnEarth n.place) map.old.nodes }
    requires item { IfSome item IsItemOnEarth }
    ensures ok { OnOk result (map.new ≡ with_item map.old item) }
    ensures on_earth { OnOk result (All (λ n. IsOnEarth n.place) map.new.nodes) }
{
    match item {
        None => Ok(()),
        Some(Item::Node(node)) => map.nodes.push(node),
        Some(Item::Way(way)) => map.ways.push(way),
    }
}

#[tactic(auto, unfolding(crate::specs::Lines::reads))]
fn parse(alloc: Global, bytes: &[u8]) -> Result<OsmMap, PlainFault>
    requires { length bytes.now < 2 ^ 32 - 3 }
    ensures read { Parses result (reads bytes.now) }
    ensures on_earth { IfOk result (λ m. All (λ n. IsOnEarth n.place) m.nodes) }
{
    let mut map = OsmMap {
        nodes: OsmNodes::new(alloc),
        ways: OsmWays::new(alloc),
    };
    let mut number = 1u32;
    let mut left = Some(bytes);
    'lines: while let Some(text) = left {
        let (line, after) = first_bytes(text, b'\n');
        let item = match read_line(alloc, line) {
            Ok(item) => item,
            Err(LineFault::NoMemory) => return Err(PlainFault::NoMemory),
            Err(LineFault::At(byte, kind)) => {
                return Err(PlainFault::At {
                    line: number,
                    byte,
                    kind,
                });
            }
        };
        if put(&mut map, item).is_err() {
            return Err(PlainFault::NoMemory);
        }
        number += 1;
        left = after;
    }
    Ok(map)
}

/// Reads a plain map of at most 268435456 bytes to the end of its source.
///
/// `At` is the first line that isn't in the form, and in it the first word. `ReadFault` and `TooLong`,
/// whichever is met first, come before any fault of a line.
pub fn read_plain<S: Source>(alloc: Global, source: &mut S) -> Result<OsmMap, PlainFault>
    // The answer is the map that the source held, or the first fault.
    ensures answer { IfSome (S.left source.old) (Answers 268435456 result) }
    ensures fault { IsErrOf result PlainFault.ReadFault → Rose (S.faults source.old) (S.faults source.new) }
    ensures end { OnOk result (IsAtEnd (S.left source.new)) }
    ensures later { S.faults source.old ≤ S.faults source.new }
    ensures mark { S.mark source.new ≡ S.mark source.old }
    // Also where the source doesn't tell what it holds.
    ensures on_earth { IfOk result (λ m. All (λ n. IsOnEarth n.place) m.nodes) }
{
    match read_whole(alloc, source, LONGEST_MAP) {
        Ok(bytes) => parse(alloc, &bytes),
        Err(TakeFault::ReadFault) => Err(PlainFault::ReadFault),
        Err(TakeFault::TooLong) => Err(PlainFault::TooLong),
        Err(TakeFault::NoMemory) => Err(PlainFault::NoMemory),
    }
}

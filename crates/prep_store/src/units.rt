//! Numbers and items, as they come from a source.
ghost use Rattle.std.specs.Prelude.{◌≡◌, ◌++◌, ◌<◌, ◌≤◌, ◌^◌, [], length, take, IfOk, IfErr, OnOk};
ghost use Rattle.std.specs.Io.KnownBytes.{Consumes, IsAtEnd};
ghost use Rattle.byteorder.specs.Endian.{big_bytes};
ghost use Rattle.gh_base.specs.Causes.{HasCause};
ghost use Rattle.prep_store.specs.Stores.{item_text};
ghost use Rattle.prep_store.specs.FirstFaults.{IsCut};
ghost use Rattle.prep_store.specs.Steps.{IsEachByte, IsLeft};
ghost use Rattle.prep_store.specs.Readings.{place, Takes, Fails};

use crate::fault::PrepFault;
use crate::item::Item;
use byteorder::{BigEndian, ByteOrder};
use gh_base::{Failed, NodeId, Source};

/// Moves bytes into a buffer until it is full or the source ends. It gives the number of bytes.
fn fill<S: Source>(source: &mut S, buf: &mut [u8]) -> Result<usize, Failed>
    requires { IsEachByte buf.old }
    ensures bytes { IfOk result (λ n. Consumes (S.left source.old) (S.left source.new) (take n buf.new)) }
    ensures within { IfOk result (λ n. n ≤ length buf.new) }
    ensures end { IfOk result (λ n. n < length buf.old → IsAtEnd (S.left source.new)) }
    ensures long { length buf.new ≡ length buf.old }
    ensures small { IsEachByte buf.new }
    ensures cause { HasCause (S.faults source.old) (S.faults source.new) result }
    ensures mark { S.mark source.new ≡ S.mark source.old }
{
    let mut done = 0;
    'pieces: while done < buf.len() {
        let count = source.take(&mut buf[done..])?;
        if count == 0 {
            return Ok(done);
        }
        done += count;
    }
    Ok(done)
}

/// Fills a buffer whole, and counts its bytes.
pub(crate) fn read_whole<S: Source>(
    source: &mut S,
    at: &mut u64,
    buf: &mut [u8],
) -> Result<(), PrepFault>
    requires small { at.old ≤ 2 ^ 62 }
    requires short { length buf.old ≤ 8 }
    requires bytes { IsEachByte buf.old }
    ensures taken { OnOk result (Takes (place S.left S.faults S.mark source.old at.old) (place S.left S.faults S.mark source.new at.new) buf.new) }
    ensures small { IsEachByte buf.new }
    ensures fails { IfErr result (Fails (IsCut (length buf.old)) (place S.left S.faults S.mark source.old at.old) (place S.left S.faults S.mark source.new at.new)) }
{
    let Ok(count) = fill(source, buf) else {
        return Err(PrepFault::ReadFault);
    };
    if count < buf.len() {
        return Err(PrepFault::Short {
            byte: *at + count as u64,
        });
    }
    *at += count as u64;
    Ok(())
}

/// A number in four bytes.
pub(crate) fn read_u32<S: Source>(source: &mut S, at: &mut u64) -> Result<u32, PrepFault>
    requires { at.old ≤ 2 ^ 62 }
    ensures number { IfOk result (λ n. Takes (place S.left S.faults S.mark source.old at.old) (place S.left S.faults S.mark source.new at.new) (big_bytes 4 n)) }
    ensures word { IfOk result (λ n. n < 2 ^ 32) }
    ensures fails { IfErr result (Fails (IsCut 4) (place S.left S.faults S.mark source.old at.old) (place S.left S.faults S.mark source.new at.new)) }
{
    let mut buf = [0; 4];
    read_whole(source, at, &mut buf)?;
    Ok(u32::from_be_bytes(buf))
}

/// Two numbers in four bytes each, which are taken together.
pub(crate) fn read_two<S: Source>(source: &mut S, at: &mut u64) -> Result<(u32, u32), PrepFault>
    requires { at.old ≤ 2 ^ 62 }
    ensures numbers { IfOk result (λ two. Takes (place S.left S.faults S.mark source.old at.old) (place S.left S.faults S.mark source.new at.new) (big_bytes 4 two.0 ++ big_bytes 4 two.1)) }
    ensures fails { IfErr result (Fails (IsCut 8) (place S.left S.faults S.mark source.old at.old) (place S.left S.faults S.mark source.new at.new)) }
{
    let mut buf = [0; 8];
    read_whole(source, at, &mut buf)?;
    Ok((BigEndian::read_u32(&buf), BigEndian::read_u32(&buf[4..])))
}

/// A number in eight bytes.
pub(crate) fn read_u64<S: Source>(source: &mut S, at: &mut u64) -> Result<u64, PrepFault>
    requires { at.old ≤ 2 ^ 62 }
    ensures number { IfOk result (λ n. Takes (place S.left S.faults S.mark source.old at.old) (place S.left S.faults S.mark source.new at.new) (big_bytes 8 n)) }
    ensures fails { IfErr result (Fails (IsCut 8) (place S.left S.faults S.mark source.old at.old) (place S.left S.faults S.mark source.new at.new)) }
{
    let mut buf = [0; 8];
    read_whole(source, at, &mut buf)?;
    Ok(u64::from_be_bytes(buf))
}

/// An item of a list.
pub(crate) fn read_item<S: Source>(source: &mut S, at: &mut u64) -> Result<Item, PrepFault>
    requires { at.old ≤ 2 ^ 62 }
    ensures item { IfOk result (λ item. Takes (place S.left S.faults S.mark source.old at.old) (place S.left S.faults S.mark source.new at.new) (item_text item)) }
    ensures node { IfOk result (λ item. item.node.0 < 2 ^ 32) }
    ensures label { IfOk result (λ item. item.label < 2 ^ 16) }
    ensures fails { IfErr result (Fails (IsCut 6) (place S.left S.faults S.mark source.old at.old) (place S.left S.faults S.mark source.new at.new)) }
{
    let mut buf = [0; 6];
    read_whole(source, at, &mut buf)?;
    Ok(Item {
        node: NodeId(BigEndian::read_u32(&buf)),
        label: BigEndian::read_u16(&buf[4..]),
    })
}

/// Reads the end.
pub(crate) fn read_end<S: Source>(source: &mut S) -> Result<(), PrepFault>
    ensures taken { OnOk result (Takes (place S.left S.faults S.mark source.old 0) (place S.left S.faults S.mark source.new 0) []) }
    ensures end { OnOk result (IsAtEnd (S.left source.new)) }
    ensures fails { IfErr result (Fails (λ _. IsLeft) (place S.left S.faults S.mark source.old 0) (place S.left S.faults S.mark source.new 0)) }
{
    let mut buf = [0; 1];
    let Ok(count) = fill(source, &mut buf) else {
        return Err(PrepFault::ReadFault);
    };
    if count > 0 {
        return Err(PrepFault::After);
    }
    Ok(())
}

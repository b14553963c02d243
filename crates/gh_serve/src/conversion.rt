//! A map in another form.
ghost use Rattle.std.specs.Prelude.{◌≡◌, ◌≢◌, ◌≤◌, OnOk, OnErr, IfOk, IfErr, IsErrOf, IfSome};
ghost use Rattle.std.specs.Io.KnownBytes.{Appends, Keeps};
ghost use Rattle.gh_base.specs.Causes.{Rose, AppendsFront};
ghost use Rattle.gh_serve.specs.Statuses.{IsOfConversion};
ghost use Rattle.map_roads.specs.Statuses.{IsUnwritten};
ghost use Rattle.gh_serve.specs.Converting.{text_in, FitsIn, IsUnfit, Converts, ConvertsFront, ConvertsPart, ConversionSays};

use gh_base::{Form, GiveFault, OsmMap, Sink, Source};
use map_roads::{Quantity, Status, Which, read_map};
use pbf_writer::{fits_pbf, write_pbf};
use plain_map::print_plain;
use std::alloc::Global;

/// The most bytes of a PBF block of one way: 32 MiB.
const LONGEST_WAY: u64 = 33_554_432;

/// That a map can be written in a form, or why not.
fn check_fit(alloc: Global, map: &OsmMap, to: Form) -> Result<(), Status>
    ensures fits { IfOk result (λ _. FitsIn to map.now) }
    ensures way { IfErr result (λ status. IsUnfit to map.now status) }
{
    match to {
        Form::Plain => Ok(()),
        Form::Pbf => match fits_pbf(alloc, map) {
            Ok(true) => Ok(()),
            Ok(false) => Err(Status::TooLarge {
                what: Quantity::Way,
                limit: LONGEST_WAY,
            }),
            Err(_) => Err(Status::NoMemory),
        },
    }
}

/// Writes a map in a form.
fn write_map<K: Sink>(alloc: Global, map: &OsmMap, to: Form, out: &mut K) -> Result<(), GiveFault>
    requires { FitsIn to map.now }
    ensures ok { OnOk result (Appends (K.held out.old) (K.held out.new) (text_in to map.now)) }
    ensures err { OnErr result
        (AppendsFront (K.held out.old) (K.held out.new) (text_in to map.now)) }
    ensures fault { IsErrOf result GiveFault.WriteFault →
        Rose (K.faults out.old) (K.faults out.new) }
{
    match to {
        Form::Plain => print_plain(alloc, map, out),
        Form::Pbf => write_pbf(alloc, map, out),
    }
}

/// Writes the map that a source holds in another form, or in the same.
///
/// A map that isn't in its grammar, or has a way that PBF has no room for, is refused before
/// anything is written. After `WriteFault`, which comes only where a call of the sink failed, and after
/// `NoMemory` the sink has a front of the text behind its old bytes.
pub fn convert<S: Source, K: Sink>(
    alloc: Global,
    source: &mut S,
    form: Form,
    to: Form,
    out: &mut K,
) -> Status
    ensures done { result ≡ Status.Done →
        IfSome (S.left source.old) (λ held.
        Converts form to held (K.held out.old) (K.held out.new)) }
    ensures map { IfSome (S.left source.old) (ConversionSays result form to) }
    ensures statuses { IsOfConversion result }
    ensures opened { result ≢ Status.OpenFault }
    ensures read { result ≡ Status.ReadFault Which.Map →
        Rose (S.faults source.old) (S.faults source.new) }
    ensures write { result ≡ Status.WriteFault → Rose (K.faults out.old) (K.faults out.new) }
    ensures front { result ≡ Status.WriteFault →
        IfSome (S.left source.old) (λ held.
        ConvertsFront form to held (K.held out.old) (K.held out.new)) }
    ensures part { result ≡ Status.NoMemory →
        IfSome (S.left source.old) (λ held.
        ConvertsPart form to held (K.held out.old) (K.held out.new)) }
    ensures nothing { IsUnwritten result → Keeps (K.held out.old) (K.held out.new) }
    ensures later { S.faults source.old ≤ S.faults source.new }
    ensures mark { S.mark source.new ≡ S.mark source.old }
{
    let map = match read_map(alloc, source, form) {
        Ok(map) => map,
        Err(status) => return status,
    };
    if let Err(status) = check_fit(alloc, &map, to) {
        return status;
    }
    match write_map(alloc, &map, to, out) {
        Ok(()) => Status::Done,
        Err(GiveFault::NoMemory) => Status::NoMemory,
        Err(GiveFault::WriteFault) => Status::WriteFault,
    }
}

//! A node that stands alone.
ghost use Rattle.std.specs.Prelude.{◌≡◌, IfOk};
ghost use Rattle.pbf_wire.specs.Nodes.{node_of, lat_axis, lon_axis, node_with};
ghost use Rattle.pbf_reader.specs.Reading.{Gives};

use crate::deltas::{coordinate, fits_id, zigzag};
use crate::fault::{PbfFault, fault};
use crate::pieces::scalar;
use crate::runs::read_run;
use gh_base::{MOST_LAT, MOST_LON, NoMemory, OsmNode, PbfKind, Point};
use pbf_wire::{Axis, Node, Scale};
use std::alloc::Global;

/// The node from a place to the end, as it is written.
#[tactic(auto, unfolding(pbf_wire::specs::Nodes::node_of))]
pub(crate) fn read_node(alloc: Global, bytes: &[u8], at: usize) -> Result<Node, NoMemory>
    ensures { IfOk result (λ n. n ≡ node_of bytes.now at) }
{
    let run = read_run(alloc, bytes, at)?;
    let fields = run.fields.as_slice();
    Ok(Node {
        place: at as u64,
        id: scalar(1, fields),
        lat: scalar(8, fields),
        lon: scalar(9, fields),
        bad: run.bad,
    })
}

pub(crate) fn lats(scale: &Scale) -> Axis
    ensures { result ≡ lat_axis scale.now }
{
    Axis {
        granularity: scale.granularity,
        offset: scale.lat_offset,
        most: MOST_LAT,
    }
}

pub(crate) fn lons(scale: &Scale) -> Axis
    ensures { result ≡ lon_axis scale.now }
{
    Axis {
        granularity: scale.granularity,
        offset: scale.lon_offset,
        most: MOST_LON,
    }
}

/// The node that it says.
#[tactic(auto, using(crate::proofs::Rounds::rounds), unfolding(pbf_wire::specs::Nodes::node_with))]
pub(crate) fn made_node(scale: &Scale, node: &Node) -> Result<OsmNode, PbfFault>
    ensures { Gives result (node_with scale.now node.now) }
{
    let Some(id) = node.id else {
        return Err(fault(node.place, PbfKind::Missing));
    };
    let Some(lat) = node.lat else {
        return Err(fault(node.place, PbfKind::Missing));
    };
    let Some(lon) = node.lon else {
        return Err(fault(node.place, PbfKind::Missing));
    };
    let id = zigzag(id);
    if !fits_id(id) {
        return Err(fault(node.place, PbfKind::BadId));
    }
    let Some(lat) = coordinate(&lats(scale), i128::from(zigzag(lat))) else {
        return Err(fault(node.place, PbfKind::BadPlace));
    };
    let Some(lon) = coordinate(&lons(scale), i128::from(zigzag(lon))) else {
        return Err(fault(node.place, PbfKind::BadPlace));
    };
    let place = Point { lat, lon };
    Ok(OsmNode { id, place })
}

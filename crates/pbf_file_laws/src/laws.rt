//! The laws. Each function does nothing: what it ensures is the law.
ghost use Rattle.pbf_file_laws.specs.Reading.{FieldsAreRead, MessagesAreRead, ScalarsAreRead, ListsAreRead};
ghost use Rattle.pbf_file_laws.specs.Nodes.{NodesAreRead, DenseNodesAreRead};
ghost use Rattle.pbf_file_laws.specs.Ways.{WaysAreRead};
ghost use Rattle.pbf_file_laws.specs.Blocks.{GroupsAreRead, BlocksAreRead};
ghost use Rattle.pbf_file_laws.specs.Files.{FilesAreRead};
ghost use Rattle.pbf_file_laws.specs.Tiling.{FieldsTile};
ghost use Rattle.pbf_file_laws.specs.Example.{FilesThereAre};

/// A field is read whole, in any spelling and of each wire type.
pub fn fields_are_read()
    ensures { FieldsAreRead }
{}

/// A message is read as its fields, in any order, one behind another to the end.
pub fn messages_are_read()
    ensures { MessagesAreRead }
{}

/// Of the scalars of a number the last counts, whatever stands between.
pub fn scalars_are_read()
    ensures { ScalarsAreRead }
{}

/// A list is what its fields say one behind another: packed, one by one, or in pieces.
pub fn lists_are_read()
    ensures { ListsAreRead }
{}

/// A node is read, with granularity and offsets.
pub fn nodes_are_read()
    ensures { NodesAreRead }
{}

/// Dense nodes are read from their differences, with their tags.
pub fn dense_nodes_are_read()
    ensures { DenseNodesAreRead }
{}

/// A way is read, with its references and its tags.
pub fn ways_are_read()
    ensures { WaysAreRead }
{}

/// A group is read: its nodes, then its dense nodes, and its ways.
pub fn groups_are_read()
    ensures { GroupsAreRead }
{}

/// A block is read: its strings, its scale, and its groups in order.
pub fn blocks_are_read()
    ensures { BlocksAreRead }
{}

/// A file is read as its map, blob by blob.
pub fn files_are_read()
    ensures { FilesAreRead }
{}

/// Of any bytes that are a message, each belongs to exactly one field.
pub fn fields_tile()
    ensures { FieldsTile }
{}

/// A file that is so: two dense nodes and a way.
pub fn files_there_are()
    ensures { FilesThereAre }
{}

//! What the definitions of roads say, in other words. These calls do nothing; their contracts are laws.
ghost use Rattle.std.specs.Prelude.{◌≡◌, ◌↔◌, ℤ, Bool, true, List, Option, Ok, Err, All, drop, map};
ghost use Rattle.std.specs.List.{flat_map};
ghost use Rattle.gh_base.specs.declared.map.Point.{Point};
ghost use Rattle.map_import.specs.Roads.{Piece, IsPiece, cut, edge_of, first_of, last_of, towers_in_order};
ghost use Rattle.map_import.specs.declared.faults.ImportFault.{ImportFault};
ghost use Rattle.map_import.specs.Refusals.{Laid, lay_all, nothing};
ghost use Rattle.map_import.specs.FirstRefusal.{IsFirstRefusal};

/// A way whose ends are towers is cut into pieces that each join neighbouring towers, and that together,
/// each without its first node, are the way without its first node.
pub fn pieces_join_towers()
    ensures whole { (tower : ℤ → Bool) (refs : List ℤ) → tower (last_of refs) ≡ true → flat_map (λ (piece : List ℤ). drop 1 piece) (cut tower refs) ≡ drop 1 refs }
    ensures pieces { (tower : ℤ → Bool) (refs : List ℤ) → tower (first_of refs) ≡ true → All (IsPiece tower) (cut tower refs) }
{}

/// Where nothing is refused, edge i is that of the i-th piece, and towers are numbered as they first occur
/// when the edges are read in order, base before adjacent.
pub fn edges_are_pieces()
    ensures edges { (place : ℤ → Option Point) (pieces : List Piece) (laid : Laid) → lay_all place nothing pieces ≡ Ok laid → laid.edges ≡ map (edge_of place laid.ids) pieces }
    ensures ids { (place : ℤ → Option Point) (pieces : List Piece) (laid : Laid) → lay_all place nothing pieces ≡ Ok laid → laid.ids ≡ towers_in_order pieces }
{}

/// Pieces are refused exactly where all of some front of them can stand and the next can't, for the first reason
/// that applies to it: it is too long, or there would be too many edges, or too many towers.
pub fn the_first_that_cannot_stand_is_refused()
    ensures { (place : ℤ → Option Point) (pieces : List Piece) (e : ImportFault) → (lay_all place nothing pieces ≡ Err e) ↔ IsFirstRefusal place pieces e }
{}

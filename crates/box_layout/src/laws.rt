//! What the division of a split's area means for its children, and where windows lie, as laws. The functions do nothing.
ghost use Rattle.std.specs.Prelude.{◌≡◌, ◌↔◌, ℕ, ◌+◌, ◌≤◌, Bool, List, sum, slice_get, count_by, All, Option, Some};
ghost use Rattle.std.specs.Prelude.{if◌then◌else◌};
ghost use Rattle.layout_dims.specs.Division.{Division, caps_of};
ghost use Rattle.layout_dims.specs.Numbers.{Numbers};
ghost use Rattle.box_layout.specs.declared.areas.Area.{Area};
ghost use Rattle.box_layout.specs.declared.nodes.Node.{Node};
ghost use Rattle.box_layout.specs.Areas.{IsInside, room_of, part_of};
ghost use Rattle.box_layout.specs.Boxes.{Boxes};
ghost use Rattle.box_layout.specs.Parts.{parts_of, begin_of, end_of, has_place};
ghost use Rattle.box_layout.specs.Placed.{PlacedFields, AllInside};

/// The parts of a split's area lie inside it.
pub fn parts_lie_inside()
    ensures { (across done : Bool) (area : Area) (dims : List Numbers) (sizes : List ℕ)
        → Division dims (room_of across area) done sizes
        → All (IsInside area) (parts_of across area sizes) }
{}

/// The parts stand in the order of the children: each begins where the one before it ends.
pub fn parts_stand_in_order()
    ensures { (across : Bool) (area : Area) (sizes : List ℕ) (i : ℕ) (one next : Area)
        → slice_get (parts_of across area sizes) i ≡ Some one
        → slice_get (parts_of across area sizes) (i + 1) ≡ Some next
        → begin_of across next ≡ end_of across one }
{}

/// Each place of the area before the sum of the sizes is in exactly one of the parts, and no other
/// place is in any.
pub fn parts_cover_each_place_once()
    ensures { (across : Bool) (area : Area) (sizes : List ℕ) (row col : ℕ)
        → count_by (λ part. has_place part row col) (parts_of across area sizes)
        ≡ (if has_place (part_of across area 0 (sum sizes)) row col then 1 else 0) }
{}

/// The parts take the whole area exactly where the children may grow as large as its room.
pub fn parts_fill_the_area()
    ensures { (across done : Bool) (area : Area) (dims : List Numbers) (sizes : List ℕ)
        → Division dims (room_of across area) done sizes
        → ((part_of across area 0 (sum sizes) ≡ area)
        ↔ (room_of across area ≤ sum (caps_of done dims))) }
{}

/// A layout has one placing in an area: the definition leaves no choice.
pub fn a_layout_has_one_placing()
    ensures { (done : Bool) (node : Node) (area : Area) (one other : Option (List PlacedFields))
        → Boxes done node area one → Boxes done node area other → one ≡ other }
{}

/// Each window of a part of a layout lies inside the area of that part: the children of a split and
/// the floats of a box too, however deep. The area has a row, since a float at the right end of a
/// box's first row takes one.
pub fn windows_lie_inside_their_part()
    ensures { (done : Bool) (node : Node) (area : Area) (placed : List PlacedFields)
        → 1 ≤ area.size.rows → Boxes done node area (Some placed) → AllInside area placed }
{}

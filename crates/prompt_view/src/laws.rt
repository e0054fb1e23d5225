//! What the closed form of a scene's rows means for its layout, as a law over the definitions. The function does nothing.
ghost use Rattle.std.specs.Prelude.{◌≡◌, List, max, min, Option, false};
ghost use Rattle.box_layout.specs.Areas.{whole};
ghost use Rattle.box_layout.specs.Asked.{wanted};
ghost use Rattle.box_layout.specs.Boxes.{Boxes};
ghost use Rattle.box_layout.specs.Children.{HasFewChildren};
ghost use Rattle.box_layout.specs.Placed.{PlacedFields};
ghost use Rattle.cell_grid.specs.Size.{IsScreen};
ghost use Rattle.prompt_view.specs.Drawing.{drawn_size};
ghost use Rattle.prompt_view.specs.Layout.{closed_places, layout_of, scroll_in};
ghost use Rattle.prompt_view.specs.Rooms.{height_of, room_of, settled_scroll};
ghost use Rattle.prompt_view.specs.Scene.{SceneFields};

/// The rows of a scene are those of its layout, which is the buffer's box above the bars. The drawing is as high as the
/// layout asks for, or as the room is where this is more, but no higher than the screen. What the placing of the layout
/// answers is the closed form: the same windows at the same places, or none. The scroll settles in the window that the
/// placing gives the buffer.
pub fn the_closed_form_is_the_placing()
    ensures few { (s : SceneFields) → HasFewChildren (layout_of s) }
    ensures height { (s : SceneFields) → IsScreen s.size.rows s.size.cols
        → height_of s ≡ min s.size.rows (max (wanted false (layout_of s)).preferred (room_of s)) }
    ensures places { (s : SceneFields) (found : Option (List PlacedFields))
        → IsScreen s.size.rows s.size.cols
        → Boxes false (layout_of s) (whole (drawn_size s)) found
        → found ≡ closed_places s }
    ensures scroll { (s : SceneFields) (found : Option (List PlacedFields))
        → IsScreen s.size.rows s.size.cols
        → Boxes false (layout_of s) (whole (drawn_size s)) found
        → settled_scroll s ≡ scroll_in s.scroll found }
{}

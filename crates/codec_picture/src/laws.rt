//! Laws of pictures of codecs, each the contract of a function that does nothing.
ghost use Rattle.std.specs.Prelude.{◌≡◌, ◌≢◌, ◌<◌, ◌+◌, ℕ, List, length, filter};
ghost use Rattle.codec_graph.specs.declared.raw.RawCodec.{RawCodec};
ghost use Rattle.route_planner.specs.declared.routes.PinPlan.{PinPlan};
ghost use Rattle.codec_picture.specs.Boxes.{AreApart, is_box};
ghost use Rattle.codec_picture.specs.Codecs.{box_at, codec_shapes};
ghost use Rattle.codec_picture.specs.Columns.{corner_of};
ghost use Rattle.codec_picture.specs.Repeats.{each};

/// The boxes in the part of a codec are those of its widgets, each once, in the order of their node identifiers.
pub fn each_widget_has_one_box()
    ensures { (codec : RawCodec) (top : ℕ) (pins : List PinPlan)
        → filter is_box (codec_shapes codec top pins) ≡ each (box_at codec top) codec.count }
{}

/// The boxes of two widgets have no place in common.
pub fn boxes_are_apart()
    ensures { (codec : RawCodec) (top one other : ℕ)
        → one < length codec.nodes → other < length codec.nodes → one ≢ other
        → AreApart (corner_of codec top (codec.first + one)) (corner_of codec top (codec.first + other)) }
{}

//! Laws of the order of pins, each the contract of a function that does nothing.
ghost use Rattle.std.specs.Prelude.{◌≡◌, ℕ, List};
ghost use Rattle.codec_graph.specs.declared.raw.RawCodec.{RawCodec};
ghost use Rattle.codec_graph.specs.declared.pin_kind.PinKind.{PinKind};
ghost use Rattle.codec_graph.specs.Order.{IsOrder, IsOrderAs};

/// The candidate pins of a codec have one order.
pub fn one_order()
    ensures { (codec : RawCodec) (first second : List ℕ) → IsOrder codec first → IsOrder codec second → first ≡ second }
{}

/// So have those of each kind.
pub fn one_order_of_each_kind()
    ensures { (kind : PinKind) (codec : RawCodec) (first second : List ℕ) → IsOrderAs kind codec first
        → IsOrderAs kind codec second → first ≡ second }
{}
